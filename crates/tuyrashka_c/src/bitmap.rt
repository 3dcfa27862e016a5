// LBMP for C and Rust.
ghost use Rattle.std.specs.Prelude.{◌≡◌};
ghost use Rattle.lbmp.specs.Call.{decoding};
ghost use Rattle.tuyrashka.specs.Exported.{gives_bitmap};

#[unsafe(no_mangle)]
pub extern "C" fn tuyrashka_decode_lbmp(
    file: &[u8],
    out: &mut [u32],
    size: &mut [u32; 2],
    clear: &mut u64,
) -> u32
    ensures { (result, (size.new, (clear.new, out.new)))
        ≡ gives_bitmap (decoding file.now out.old) }
{
    tuyrashka::tuyrashka_decode_lbmp(file, out, size, clear)
}
