//! Stamps of a batch that wait for their signatures.
ghost use Rattle.std.specs.Prelude.{◌≡◌, ◌≤◌, [], map, length, IfOk, IfErr, vec_len, vec_capacity};
ghost use Rattle.desk.specs.auxiliary.Halves.{IsEmptyBatch};

use crate::completion::WrittenBatch;
use crate::fault::Fault;
use crate::reply::Reply;
use crate::settings::Settings;
use crate::waiting_stamp::WaitingStamp;
use std::alloc::Global;
use tsp::Rule;

/// A batch up to its signatures: what waits is reserved. It has to be spent, by `finish_each`, keeps the settings of
/// its `begin_each`, and has room for all that is written then.
pub(crate) struct PendingBatch<'p, 'a> {
    pub(crate) settings: Settings<'p>,
    /// For each stamp the rule by which it is rejected, or none, where it waits.
    pub(crate) verdicts: Vec<Option<Rule>>,
    /// Those that wait, in their order.
    pub(crate) waits: Vec<WaitingStamp<'p, 'a>>,
    pub(crate) written: WrittenBatch,
    pub(crate) replies: Vec<Reply>,
}

/// An empty list with room for so many. Refused where memory wants.
pub(crate) fn room_for<T: Drop>(alloc: Global, count: usize) -> Result<Vec<T>, Fault>
    ensures empty { IfOk result (λ room. room.items ≡ []) }
    ensures room { IfOk result (λ room. count ≤ vec_capacity room) }
    ensures memory { IfErr result (λ fault. fault ≡ Fault.Memory) }
{
    Vec::with_capacity(alloc, count).map_err(|_| Fault::Memory)
}

/// A batch of no stamp, with room for so many. Refused where memory wants.
pub(crate) fn empty_batch<'p, 'a>(
    alloc: Global,
    settings: Settings<'p>,
    count: usize,
) -> Result<PendingBatch<'p, 'a>, Fault>
    ensures empty { IfOk result (IsEmptyBatch count) }
    ensures memory { IfErr result (λ fault. fault ≡ Fault.Memory) }
{
    Ok(PendingBatch {
        settings,
        verdicts: room_for(alloc, count)?,
        waits: room_for(alloc, count)?,
        written: WrittenBatch {
            seals: room_for(alloc, count)?,
            replies: room_for(alloc, count)?,
        },
        replies: room_for(alloc, count)?,
    })
}

/// The texts to sign. The caller has taken the room for them.
pub(crate) fn texts_of<'w>(waits: &'w [WaitingStamp<'_, '_>], room: Vec<&'w [u8]>) -> Vec<&'w [u8]>
    requires empty { room.items ≡ [] }
    requires room { length waits.now ≤ vec_capacity room }
    ensures texts { map (λ text. text.now) result.items ≡ map (λ waiting. waiting.unsigned.text.items) waits.now }
    ensures as_many { vec_len result ≡ length waits.now }
{
    let mut texts = room;
    for waiting in waits {
        texts.push_reserved(waiting.unsigned.text.as_slice());
    }
    texts
}
