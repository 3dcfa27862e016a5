// The table of ops: a name, and the kinds of its arguments.
ghost use Rattle.std.specs.Prelude.{◌≡◌, ◌≤◌, length};
ghost use Rattle.cases.specs.Row.{row_of};

// The names of the ops: their letters, one behind the other.
pub const PUT: u64 = 0x707574;

pub const GET: u64 = 0x676574;

pub const LINE: u64 = 0x6c696e65;

pub const RECT: u64 = 0x72656374;

pub const FILL: u64 = 0x66696c6c;

pub const ARC: u64 = 0x617263;

pub const PIE: u64 = 0x706965;

pub const RRECT: u64 = 0x7272656374;

pub const FRRECT: u64 = 0x667272656374;

pub const COPY: u64 = 0x636f7079;

pub const INVERT: u64 = 0x696e76657274;

pub const DRAW: u64 = 0x64726177;

pub const LBMP: u64 = 0x6c626d70;

pub const RES: u64 = 0x726573;

// What an argument is. A row length says how many words before it the width stands.
#[derive(Clone, Copy)]
pub(crate) enum Kind {
    Int,
    Switch,
    Channel,
    Seed,
    Unsigned,
    File,
    Rule,
    Row(usize),
}

use Kind::{Channel, File, Int, Row, Rule, Seed, Switch, Unsigned};

// What stands before an op: the canvas, and how it is drawn on.
pub(crate) const HEAD: [Kind; 7] = [Unsigned, Unsigned, Unsigned, Switch, Seed, Row(4), Rule];

const PUT_KINDS: [Kind; 10] = [
    Int, Int, Channel, Channel, Channel, Channel, Int, Int, Unsigned, Unsigned,
];

const GET_KINDS: [Kind; 2] = [Int, Int];

const LINE_KINDS: [Kind; 12] = [
    Int, Int, Int, Int, Channel, Channel, Channel, Channel, Int, Int, Unsigned, Unsigned,
];

const RECT_KINDS: [Kind; 12] = [
    Int, Int, Unsigned, Unsigned, Channel, Channel, Channel, Channel, Int, Int, Unsigned, Unsigned,
];

const ARC_KINDS: [Kind; 14] = [
    Int, Int, Unsigned, Unsigned, Int, Int, Channel, Channel, Channel, Channel, Int, Int, Unsigned,
    Unsigned,
];

const RRECT_KINDS: [Kind; 14] = [
    Int, Int, Unsigned, Unsigned, Unsigned, Unsigned, Channel, Channel, Channel, Channel, Int, Int,
    Unsigned, Unsigned,
];

const COPY_KINDS: [Kind; 10] = [
    Int, Int, Int, Int, Unsigned, Unsigned, Int, Int, Unsigned, Unsigned,
];

const INVERT_KINDS: [Kind; 8] = [Int, Int, Unsigned, Unsigned, Int, Int, Unsigned, Unsigned];

const DRAW_KINDS: [Kind; 16] = [
    Int,
    Int,
    Unsigned,
    Unsigned,
    Unsigned,
    Unsigned,
    Unsigned,
    Seed,
    Row(3),
    Rule,
    Int,
    Int,
    Int,
    Int,
    Unsigned,
    Unsigned,
];

const LBMP_KINDS: [Kind; 2] = [Unsigned, File];

const RES_KINDS: [Kind; 1] = [File];

// What is no op has no arguments.
#[tactic(auto, unfolding(crate::specs::Row::row_of))]
pub(crate) fn kinds(name: u64) -> &'static [Kind]
    ensures row { result.now ≡ row_of name }
    ensures len { length result.now ≤ 16 }
{
    match name {
        PUT => &PUT_KINDS,
        GET => &GET_KINDS,
        LINE => &LINE_KINDS,
        RECT | FILL => &RECT_KINDS,
        ARC | PIE => &ARC_KINDS,
        RRECT | FRRECT => &RRECT_KINDS,
        COPY => &COPY_KINDS,
        INVERT => &INVERT_KINDS,
        DRAW => &DRAW_KINDS,
        LBMP => &LBMP_KINDS,
        RES => &RES_KINDS,
        _ => &[],
    }
}
