// RES for C and Rust.
ghost use Rattle.std.specs.Prelude.{◌≡◌};
ghost use Rattle.res.specs.Search.{reads, first_icon};
ghost use Rattle.tuyrashka.specs.Exported.{gives_icon};

use crate::records::give_size;

pub fn tuyrashka_decode_res(file: &[u8], start: &mut usize, size: &mut [u32; 2]) -> u32
    ensures { (result, (start.new, size.new)) ≡ gives_icon (reads (first_icon file.now)) }
{
    let f = res::decode_res(file);
    match f {
        Err(r) => {
            *start = 0;
            give_size(0, 0, size);
            r.number()
        }
        Ok(i) => {
            *start = i.start;
            give_size(i.width, i.height, size);
            0
        }
    }
}
