ghost use Rattle.std.specs.Prelude.{◌<◌, All, IfOk};

use cells::{Act, Call, Deed, ScriptedCell, run};
use std::alloc::{AllocError, Global};
use std::test::Fail;

/// A script by its letters: `d` delays a swap, and `l` lets what was delayed land.
fn script(alloc: Global, letters: &[u8]) -> Result<Vec<Deed>, AllocError> {
    let mut made = Vec::new(alloc);
    for letter in letters {
        let deed = match *letter {
            b'd' => Deed::Delay,
            b'l' => Deed::Land,
            _ => Deed::Answer,
        };
        made.push(deed)?;
    }
    Ok(made)
}

/// What a holder does, by a letter: `?` reads, `!` touches, and any other is swapped in.
fn act(alloc: Global, letter: u8) -> Result<Act, AllocError> {
    match letter {
        b'?' => Ok(Act::Read),
        b'!' => Ok(Act::Touch),
        byte => Ok(Act::Swap(Vec::from_slice(alloc, &[byte])?)),
    }
}

/// Calls of two holders, in order: whether it is the second's, and its letter.
fn calls(alloc: Global, letters: &[(bool, u8)]) -> Result<Vec<Call>, AllocError>
    ensures { IfOk result (λ made. All (λ call. call.holder < 2) made.items) }
{
    let mut made = Vec::new(alloc);
    for (is_second, letter) in letters {
        let holder = usize::from(*is_second);
        let act = act(alloc, *letter)?;
        made.push(Call { holder, act })?;
    }
    Ok(made)
}

/// The bytes of the values that a cell of a script held while two holders called, the newest first.
fn chain_by(
    alloc: Global,
    script_letters: &[u8],
    letters: &[(bool, u8)],
) -> Result<Vec<u8>, AllocError> {
    let mut cell = ScriptedCell::new(alloc, script(alloc, script_letters)?);
    let calls = calls(alloc, letters)?;
    let _ = run(alloc, &mut cell, 2, calls.as_slice())?;
    let mut bytes = Vec::new(alloc);
    for version in cell.chain() {
        bytes.extend_from_slice(version.bytes())?;
    }
    Ok(bytes)
}

static BOTH_SWAP: [(bool, u8); 7] = [
    (false, b'?'),
    (true, b'?'),
    (false, b'a'),
    (true, b'b'),
    (true, b'c'),
    (true, b'?'),
    (true, b'd'),
];

static ONE_TOUCHES: [(bool, u8); 7] = [
    (false, b'?'),
    (false, b'a'),
    (false, b'b'),
    (false, b'!'),
    (true, b'?'),
    (true, b'?'),
    (true, b'?'),
];

static NONE_TOUCHES: [(bool, u8); 7] = [
    (false, b'?'),
    (false, b'a'),
    (false, b'b'),
    (false, b'x'),
    (true, b'?'),
    (true, b'?'),
    (true, b'?'),
];

#[test]
fn of_two_that_read_the_same_one_swaps(rt: HostRuntime) -> Result<(), Fail> {
    let chain = chain_by(rt.alloc(), b"", &BOTH_SWAP)?;
    assert_eq!(rt; chain.as_slice(), b"da".as_slice());
    Ok(())
}

#[test]
fn a_swap_that_was_delayed_comes_later(rt: HostRuntime) -> Result<(), Fail> {
    let chain = chain_by(rt.alloc(), b"..d.ll", &NONE_TOUCHES)?;
    assert_eq!(rt; chain.as_slice(), b"ba".as_slice());
    Ok(())
}

#[test]
fn a_swap_that_was_delayed_never_comes_behind_a_touch(rt: HostRuntime) -> Result<(), Fail> {
    let chain = chain_by(rt.alloc(), b"..d.ll", &ONE_TOUCHES)?;
    assert_eq!(rt; chain.as_slice(), b"aa".as_slice());
    Ok(())
}
