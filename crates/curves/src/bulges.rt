// Regions that are one run in each row: the ellipses of pies, and boxes with round corners. Whether such a region takes a pixel
// hangs on how far it lies from the middle of its row and of its column.
ghost use Rattle.std.specs.Prelude.{◌≡◌, ◌+◌, ◌-◌, ◌*◌, ◌<◌, ◌≤◌, true, false};
ghost use Rattle.curves.specs.Bulges.{pie_side, round_side, Sided, part_on, has_at, Rising, Run};

// A side of a box of `count` places, of which the arcs at both ends take `arc` halves. A place's offset from the nearest centre is
// that from the middle less what is straight, count - 1 - arc halves, and is divided by `by` halves.
#[derive(Clone, Copy)]
pub struct Side {
    pub count: u32,
    pub arc: u32,
    pub by: u32,
}

// The square of a place's part in the ellipse.
pub fn part(s: Side, i: u32) -> f32
    requires { (Sided s) × (i < s.count) }
    ensures { result ≡ part_on s i }
{
    let m = s.count - 1;
    let by = s.by;
    let far = ((2 * i) as i32).abs_diff(m as i32);
    let k = ((far + s.arc) as i32 - m as i32).max(0);
    let n = k as f32 / by as i32 as f32;
    n * n
}

// Whether the region takes a place of a row.
fn has(s: Side, row: f32, i: u32) -> bool
    requires { (Sided s) × (i < s.count) }
    ensures { result ≡ has_at s row i }
{
    part(s, i) + row <= 1.0
}

// The first place taken, looked for from one that is taken on to the left.
fn outward(s: Side, row: f32, from: u32) -> u32
    requires { (Sided s) × ((Rising (has_at s row) s.count) × ((2 * from < s.count) × (has_at s row from ≡ true))) }
    ensures { Run (has_at s row) s.count result }
{
    for i in (0..from).rev() {
        if !has(s, row, i) {
            return i + 1;
        }
    }
    0
}

// The first place taken, looked for from one on before which none is.
fn inward(s: Side, row: f32, from: u32) -> u32
    requires { (Sided s) × ((Rising (has_at s row) s.count) × ((1 ≤ from) × ((2 * from ≤ s.count + 1) × (has_at s row (from - 1) ≡ false)))) }
    ensures { Run (has_at s row) s.count result }
{
    let half = (s.count + 1) / 2;
    for i in from..half {
        if has(s, row, i) {
            return i;
        }
    }
    half
}

// The first place r of a row that is taken, looked for from a place of its left half on, either way. The row's run is from r up to
// count - r; where none is taken r is half of count, rounded up.
pub fn first(s: Side, row: f32, from: u32) -> u32
    requires { (Sided s) × ((Rising (has_at s row) s.count) × (2 * from < s.count)) }
    ensures { Run (has_at s row) s.count result }
{
    if has(s, row, from) {
        return outward(s, row, from);
    }
    inward(s, row, from + 1)
}

// A side of a pie's box.
pub fn pie_side(n: u32) -> Side
    requires { 1 ≤ n }
    ensures { result ≡ pie_side n }
{
    let m = n - 1;
    Side {
        count: n,
        arc: m,
        by: m.max(1),
    }
}

// A side of a box with arcs of this size.
pub fn round_side(arc: u32, n: u32) -> Side
    ensures { result ≡ round_side arc n }
{
    let k = arc.min(n).max(1);
    Side {
        count: n,
        arc: k,
        by: k,
    }
}
