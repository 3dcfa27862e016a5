// What oracle/cuts links: whether something is left of a segment, and its ends.
ghost use Rattle.std.specs.Prelude.{◌≡◌};
ghost use Rattle.segments.specs.Cut.{clip_segment};
ghost use Rattle.exports.specs.Ends.{is_left, end_of};

#[unsafe(no_mangle)]
pub extern "C" fn segment_left(x1: i32, y1: i32, x2: i32, y2: i32, width: u32, height: u32) -> bool
    ensures { result ≡ is_left (clip_segment x1 y1 x2 y2 width height) }
{
    segments::clip_segment(x1, y1, x2, y2, width, height).is_some()
}

// x1, y1, x2 and y2 by number; 0 where nothing is left.
#[unsafe(no_mangle)]
pub extern "C" fn segment_end(
    which: u32,
    x1: i32,
    y1: i32,
    x2: i32,
    y2: i32,
    width: u32,
    height: u32,
) -> i32
    ensures { result ≡ end_of which (clip_segment x1 y1 x2 y2 width height) }
{
    let Some(s) = segments::clip_segment(x1, y1, x2, y2, width, height) else {
        return 0;
    };
    match which {
        0 => s.x1,
        1 => s.y1,
        2 => s.x2,
        _ => s.y2,
    }
}
