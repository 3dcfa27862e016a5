// The arguments of a line.
ghost use Rattle.std.specs.Prelude.{◌<◌, ◌≤◌, length, option_map};
ghost use Rattle.cases.specs.Place.{Reads, left_of, taken};
ghost use Rattle.cases.specs.Line.{got};
ghost use Rattle.cases.specs.Row.{word_of, arg_of, args_of};

use crate::number::{read_kind, read_named};
use crate::ops::Kind;
use crate::seed::{Seed, read_file, read_seed};

// The arguments that were read: those that are numbers, each at its place among the words, and the seed or the file.
#[derive(Clone, Copy)]
pub(crate) struct Args<'a> {
    pub numbers: [u32; 16],
    pub seed: Seed<'a>,
}

// The number that is the word i, behind those before it.
fn read_word<'a>(
    left: Option<&'a [u8]>,
    i: usize,
    kind: Kind,
    numbers: &[u32; 16],
) -> Option<(u32, Option<&'a [u8]>)>
    requires { i < 16 }
    ensures { Reads (λ n. n) result (word_of i kind numbers.now (left_of left.entry)) }
{
    match kind {
        Kind::Row(back) => Some(read_named(left, b"row=", numbers[i.saturating_sub(back)])),
        Kind::Rule => Some(read_named(left, b"rule=", 1)),
        _ => read_kind(left, kind),
    }
}

// Reads one more argument, which is the word i of them, and answers what is left after it.
fn take<'a>(
    left: Option<&'a [u8]>,
    i: usize,
    kind: Kind,
    args: &mut Args<'a>,
) -> Option<Option<&'a [u8]>>
    requires { i < 16 }
    ensures { Reads taken (option_map (λ l. (args.new, l)) result) (arg_of i kind (got (taken args.old) (left_of left.entry))) }
{
    match kind {
        Kind::Seed => {
            let (seed, left) = read_seed(left)?;
            args.seed = seed;
            Some(left)
        }
        Kind::File => {
            let (seed, left) = read_file(left)?;
            args.seed = seed;
            Some(left)
        }
        _ => {
            let (n, left) = read_word(left, i, kind, &args.numbers)?;
            args.numbers[i] = n;
            Some(left)
        }
    }
}

// Reads the arguments of these kinds.
pub(crate) fn read_args<'a>(
    left: Option<&'a [u8]>,
    kinds: &[Kind],
) -> Option<(Args<'a>, Option<&'a [u8]>)>
    requires { length kinds.now ≤ 16 }
    ensures { Reads taken result (args_of kinds.now (left_of left.entry)) }
{
    let mut args = Args {
        numbers: [0; 16],
        seed: Seed::Bytes(&[]),
    };
    let mut left = left;
    for (i, kind) in kinds.iter().enumerate() {
        left = take(left, i, *kind, &mut args)?;
    }
    Some((args, left))
}
