// RES for C and Rust.
ghost use Rattle.std.specs.Prelude.{◌≡◌};
ghost use Rattle.res.specs.Search.{reads, first_icon};
ghost use Rattle.tuyrashka.specs.Exported.{gives_icon};

#[unsafe(no_mangle)]
pub extern "C" fn tuyrashka_decode_res(file: &[u8], start: &mut usize, size: &mut [u32; 2]) -> u32
    ensures { (result, (start.new, size.new)) ≡ gives_icon (reads (first_icon file.now)) }
{
    tuyrashka::tuyrashka_decode_res(file, start, size)
}
