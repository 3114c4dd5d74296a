//! Frames: octets with their number in front, over any reader and writer.
ghost use Rattle.std.specs.Prelude.{◌≡◌, ◌^◌, ◌<◌, ◌++◌, ℕ, List, map, length, slice_index, IfOk, OnOk, OnErr, vec_len};
ghost use Rattle.std.specs.{List.AllByRecursion, Int.to_be_bytes, Int.w32};
ghost use Rattle.std.specs.Io.KnownBytes.{Appends, Consumes};
ghost use Rattle.cms.specs.Framed.{frame, frames, IsAnswer, IsShort, SendsBeginning, ReceivesNoAnswer};

use crate::answer_room::{AnswerRoom, MAX_ANSWER};
use std::alloc::{AllocError, Global};
use std::io::{Read, Write};

/// An end is done: a read or a write failed, the input ended, or there is no answer in it.
#[derive(Drop)]
pub(crate) struct Stopped;

/// Writes octets, all of them or a beginning.
pub(crate) fn write_all<W: Write>(writer: &mut W, octets: &[u8]) -> Result<(), Stopped>
    ensures ok { OnOk result (Appends (W.contents writer.old) (W.contents writer.new) octets.now) }
    ensures err { OnErr result (SendsBeginning (W.contents writer.old) (W.contents writer.new) octets.now) }
{
    let mut rest = octets;
    while !rest.is_empty() {
        match writer.write(rest) {
            Ok(0) => return Err(Stopped),
            Ok(taken) => rest = rest.split_at(taken).1,
            Err(_) => return Err(Stopped),
        }
    }
    Ok(())
}

/// Fills octets from a reader.
fn read_octets<R: Read>(reader: &mut R, octets: &mut [u8]) -> Result<(), Stopped>
    ensures octets { (i : ℕ) → slice_index octets.new i < 256 }
    ensures ok { OnOk result (Consumes (R.remaining reader.old) (R.remaining reader.new) octets.new) }
    ensures err { OnErr result ((taken : List ℕ) × (length taken < length octets.old)
        × Consumes (R.remaining reader.old) (R.remaining reader.new) taken) }
{
    let mut filled = 0;
    while filled < octets.len() {
        match reader.read(&mut octets[filled..]) {
            Ok(0) => return Err(Stopped),
            Ok(taken) => filled += taken,
            Err(_) => return Err(Stopped),
        }
    }
    Ok(())
}

/// Reads a number in four octets, most significant first.
#[tactic(auto, using(crate::proofs::FramePieces::receives_too_few))]
fn read_count<R: Read>(reader: &mut R) -> Result<u32, Stopped>
    ensures ok { IfOk result (λ count.
        Consumes (R.remaining reader.old) (R.remaining reader.new) (to_be_bytes w32 count)) }
    ensures err { OnErr result (ReceivesNoAnswer (R.remaining reader.old) (R.remaining reader.new)) }
{
    let mut octets = [0; 4];
    match read_octets(reader, &mut octets) {
        Ok(()) => Ok(u32::from_be_bytes(octets)),
        Err(Stopped) => Err(Stopped),
    }
}

/// Fills all of a vector's octets from a reader.
fn fill<R: Read>(reader: &mut R, room: &mut Vec<u8>) -> Result<(), Stopped>
    ensures same_len { vec_len room.new ≡ vec_len room.old }
    ensures ok { OnOk result (Consumes (R.remaining reader.old) (R.remaining reader.new) room.new.items) }
    ensures err { OnErr result ((taken : List ℕ) × (length taken < vec_len room.old)
        × Consumes (R.remaining reader.old) (R.remaining reader.new) taken) }
{
    match read_octets(reader, room.as_mut_slice()) {
        Ok(()) => Ok(()),
        Err(Stopped) => Err(Stopped),
    }
}

/// Reads a frame of 1 to 4,096 octets into room for so many, and leaves the octets there.
#[tactic(auto, using(crate::proofs::FramePieces::receiving_laws))]
pub(crate) fn receive<R: Read>(reader: &mut R, room: &mut Vec<u8>) -> Result<(), Stopped>
    requires { vec_len room.old ≡ 4096 }
    ensures ok { OnOk result (Consumes (R.remaining reader.old) (R.remaining reader.new) (frame room.new.items)) }
    ensures answer { OnOk result (IsAnswer room.new.items) }
    ensures err { OnErr result (ReceivesNoAnswer (R.remaining reader.old) (R.remaining reader.new)) }
{
    let count = match read_count(reader) {
        Ok(count) => count as usize,
        Err(Stopped) => return Err(Stopped),
    };
    if count == 0 || count > MAX_ANSWER {
        return Err(Stopped);
    }
    room.truncate(count);
    match fill(reader, room) {
        Ok(()) => Ok(()),
        Err(Stopped) => Err(Stopped),
    }
}

/// Puts a frame behind octets.
#[tactic(auto, using(crate::proofs::FramePieces::frame_behind))]
fn push_frame(octets: &mut Vec<u8>, text: &[u8]) -> Result<(), AllocError>
    requires { length text.now < 2 ^ 32 }
    ensures { OnOk result (octets.new.items ≡ octets.old.items ++ frame text.now) }
{
    octets.extend_from_slice(&(text.len() as u32).to_be_bytes())?;
    octets.extend_from_slice(text)?;
    Ok(())
}

/// The frame of a text.
pub(crate) fn frame_of(alloc: Global, text: &[u8]) -> Result<Vec<u8>, AllocError>
    requires { length text.now < 2 ^ 32 }
    ensures { IfOk result (λ octets. octets.items ≡ frame text.now) }
{
    let mut octets = Vec::with_capacity(alloc, 4 + text.len())?;
    push_frame(&mut octets, text)?;
    Ok(octets)
}

/// The frames of texts, one after the other. Refused where memory wants, or a text is too long for a frame.
pub(crate) fn frames_of(alloc: Global, texts: &[&[u8]]) -> Result<Vec<u8>, AllocError>
    ensures octets { IfOk result (λ octets. octets.items ≡ frames (map (λ text. text.now) texts.now)) }
    ensures short { OnOk result (AllByRecursion IsShort (map (λ text. text.now) texts.now)) }
{
    let mut octets = Vec::new(alloc);
    for text in texts {
        if text.len() >= 1 << 32 {
            return Err(AllocError);
        }
        push_frame(&mut octets, text)?;
    }
    Ok(octets)
}

/// Room for so many answers.
pub(crate) fn rooms_of(alloc: Global, count: usize) -> Result<Vec<AnswerRoom>, AllocError>
    ensures { IfOk result (λ rooms. vec_len rooms ≡ count) }
{
    let mut rooms = Vec::with_capacity(alloc, count)?;
    while rooms.len() < count {
        rooms.push(AnswerRoom::new(alloc)?)?;
    }
    Ok(rooms)
}
