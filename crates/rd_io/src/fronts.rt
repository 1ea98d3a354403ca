//! Reading the front of an input.
ghost use Rattle.std.specs.Prelude.{◌≡◌, ◌≢◌, ◌<◌, ◌≤◌, ◌++◌, ℕ, List, [], Err, length, IfOk, OnErr};
ghost use Rattle.rd_io.specs.Inputs.{Goes, Takes, Rose};
ghost use Rattle.rd_io.specs.Fronts.{TakesFront, TakesSome};
ghost use Rattle.rd_io.specs.declared.fronts.FrontRefused.TheVariants.{NoMemory as MemoryRefused};

use crate::inputs::Inputs;
use rd_base::{Bytes, NoMemory};
use std::alloc::{AllocError, Global};
use thiserror::Error;

/// How many bytes are asked for in one read, at most.
const PIECE: u32 = 65536;

/// Why the front of an input is not given.
#[derive(Clone, Copy, Debug, PartialEq, Eq, Error)]
pub enum FrontRefused {
    /// a read failed
    #[error("a read failed")]
    Fault,
    /// memory ran out
    #[error("out of memory")]
    NoMemory,
}

impl From<NoMemory> for FrontRefused {
    ghost from_gives = { λ _ e. e ≡ MemoryRefused };

    fn from(_error: NoMemory) -> FrontRefused {
        FrontRefused::NoMemory
    }
}

impl From<AllocError> for FrontRefused {
    ghost from_gives = { λ _ e. e ≡ MemoryRefused };

    fn from(_error: AllocError) -> FrontRefused {
        FrontRefused::NoMemory
    }
}

// Reads at most so many bytes over the front of a piece, and puts them behind a text.
fn read_behind<I: Inputs>(
    inputs: &mut I,
    piece: &mut [u8],
    left: u32,
    text: &mut Bytes,
) -> Result<u32, FrontRefused>
    requires room { 0 < length piece.old }
    requires some { 0 < left }
    ensures room { length piece.new ≡ length piece.old }

    // these bytes came, none at the end alone
    ensures ok { IfOk result
        (λ count. (bytes : List ℕ) × (length bytes ≡ count) × (text.new ≡ text.old ++ bytes)
        × Goes (I.told inputs.old) (I.told inputs.new)
        (λ old new. Takes old new bytes × (count ≡ 0 → old.held ≡ []))) }
    ensures bound { IfOk result (λ count. count ≤ left) }

    // or a read failed, or memory ran out behind it
    ensures refused { OnErr result (Goes (I.told inputs.old) (I.told inputs.new) (TakesSome left)) }
    ensures calm { result ≢ Err FrontRefused.Fault → I.faults inputs.new ≡ I.faults inputs.old }
    ensures fault { result ≡ Err FrontRefused.Fault →
        Rose (I.faults inputs.old) (I.faults inputs.new) }
{
    let room = piece.len().min(left as usize);
    let Ok(count) = inputs.read(&mut piece[..room]) else {
        return Err(FrontRefused::Fault);
    };
    text.append(&piece[..count])?;
    Ok(count as u32)
}

/// The first bytes of the current input, which was just opened: so many, or all of them where there are fewer. No read is handed
/// more room than is left of them.
pub fn read_front<I: Inputs>(
    alloc: Global,
    inputs: &mut I,
    most: u32,
) -> Result<Bytes, FrontRefused>
    // the bytes are what was taken
    ensures ok { IfOk result
        (λ bytes. Goes (I.told inputs.old) (I.told inputs.new)
        (λ old new. TakesFront most old new bytes)) }
    ensures few { IfOk result (λ bytes. length bytes ≤ most) }

    // or some were taken, and a read failed in this call or memory ran out
    ensures refused { OnErr result (Goes (I.told inputs.old) (I.told inputs.new) (TakesSome most)) }
    ensures calm { result ≢ Err FrontRefused.Fault → I.faults inputs.new ≡ I.faults inputs.old }
    ensures fault { result ≡ Err FrontRefused.Fault →
        Rose (I.faults inputs.old) (I.faults inputs.new) }
{
    let mut piece = vec![in alloc; 0; most.min(PIECE) as usize]?;
    let mut text = Bytes::new(alloc);
    let mut left = most;
    while left > 0 {
        let count = read_behind(inputs, &mut piece, left, &mut text)?;
        if count == 0 {
            break;
        }
        left -= count;
    }
    Ok(text)
}
