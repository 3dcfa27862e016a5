// LBMP for C and Rust.
ghost use Rattle.std.specs.Prelude.{◌≡◌};
ghost use Rattle.lbmp.specs.Call.{decoding};
ghost use Rattle.tuyrashka.specs.Exported.{gives_bitmap};

use crate::records::give_size;

pub fn tuyrashka_decode_lbmp(
    file: &[u8],
    out: &mut [u32],
    size: &mut [u32; 2],
    clear: &mut u64,
) -> u32
    ensures { (result, (size.new, (clear.new, out.new)))
        ≡ gives_bitmap (decoding file.now out.old) }
{
    let j = lbmp::decode_lbmp(file, out);
    match j {
        Err(r) => {
            give_size(0, 0, size);
            *clear = 0;
            r.number()
        }
        Ok(i) => {
            give_size(i.width, i.height, size);
            *clear = i.clear;
            0
        }
    }
}
