//! Connections that were handed out, and their answers.
ghost use Rattle.std.specs.Prelude.{◌≡◌, ◌≤◌, [], ◌∷◌, length, map, MatchOption};
ghost use Rattle.desk.specs.Answers.{reply_as};
ghost use Rattle.connections.specs.auxiliary.Gathering.{AreReplied, AreWritten, gathered_in, handed_view};
ghost use Rattle.connections.specs.{Heard.AreAnswered, Heard.hall, Parts.most_together};

use crate::gathering::{Gathering, Handed};
use crate::request_source::RequestSource;
use book::Book;
use cms::Signer;
use desk::{Desk, Reply};
use service::Surroundings;
use std::alloc::Global;

/// Answers one by itself.
fn answer_one<L: RequestSource, B: Book + Drop, G: Signer>(
    source: &mut L,
    one: Handed<L::Stream>,
    desk: &mut Desk<'_, B>,
    signer: &mut G,
)
    ensures { AreAnswered L.takes_back L.Stream.contents B.Standing G.signs G.fault_count (handed_view one ∷ [])
        (hall source.old (tt {0}) desk.old signer.old) (hall source.new (tt {0}) desk.new signer.new) }
{
    let Handed {
        request,
        stream,
        reading,
    } = one;
    let surroundings = Surroundings {
        alloc: source.alloc(),
        reading,
        octets: source.octets(),
    };
    let mut stream = stream;
    let exchanged = request.serve(surroundings, desk, signer, &mut stream);
    source.take_back(stream, exchanged);
}

/// Answers each by itself, one after the other.
fn answer_in_turn<L: RequestSource, B: Book + Drop, G: Signer>(
    source: &mut L,
    ones: Vec<Handed<L::Stream>>,
    desk: &mut Desk<'_, B>,
    signer: &mut G,
)
    ensures { AreAnswered L.takes_back L.Stream.contents B.Standing G.signs G.fault_count (map handed_view ones.items)
        (hall source.old (tt {0}) desk.old signer.old) (hall source.new (tt {0}) desk.new signer.new) }
{
    for one in ones {
        answer_one(source, one, desk, signer);
    }
}

/// The desk's replies to the stamps that they ask for, answered together. None where memory wants, or one asks for
/// something else; nothing is done then.
fn replies_to<S: Drop, B: Book + Drop, G: Signer>(
    stamps: &[Handed<S>],
    alloc: Global,
    desk: &mut Desk<'_, B>,
    signer: &mut G,
) -> Option<Vec<Reply>>
    ensures { MatchOption result ((desk.new ≡ desk.old) × (signer.new ≡ signer.old))
        (λ replies. AreReplied B.Standing G.signs G.fault_count (map handed_view stamps.now)
        (map reply_as replies.items) desk.old signer.old desk.new signer.new) }
{
    let policy = desk.policy();
    let Ok(mut asked) = Vec::with_capacity(alloc, stamps.len()) else {
        return None;
    };
    for one in stamps {
        asked.push_reserved(one.request.stamp(policy, one.reading)?);
    }
    desk.answer_each(&asked, signer).ok()
}

/// Writes to each its reply, and takes it back.
fn write_each<L: RequestSource>(source: &mut L, stamps: Vec<Handed<L::Stream>>, replies: &[Reply])
    requires as_many { length replies.now ≡ length stamps.items }
    ensures { AreWritten L.takes_back L.Stream.contents (map handed_view stamps.items) (map reply_as replies.now)
        source.old source.new }
{
    let mut rest = stamps.into_iter();
    for reply in replies {
        if let Some(one) = rest.next() {
            let Handed {
                request,
                stream,
                reading,
            } = one;
            let mut stream = stream;
            let exchanged = request.write_stamped(reading, reply, &mut stream);
            source.take_back(stream, exchanged);
        }
    }
}

/// Answers them together where they are several, and else by themselves.
fn answer_together<L: RequestSource, B: Book + Drop, G: Signer>(
    source: &mut L,
    stamps: Vec<Handed<L::Stream>>,
    desk: &mut Desk<'_, B>,
    signer: &mut G,
)
    requires few { length stamps.items ≤ most_together }
    ensures { AreAnswered L.takes_back L.Stream.contents B.Standing G.signs G.fault_count (map handed_view stamps.items)
        (hall source.old (tt {0}) desk.old signer.old) (hall source.new (tt {0}) desk.new signer.new) }
{
    if stamps.len() > 1 {
        if let Some(replies) = replies_to(&stamps, source.alloc(), desk, signer) {
            write_each(source, stamps, &replies);
            return;
        }
    }
    answer_in_turn(source, stamps, desk, signer);
}

/// Answers those that were gathered, and then the one behind them. How many they were.
pub(crate) fn answer_gathered<L: RequestSource, B: Book + Drop, G: Signer>(
    source: &mut L,
    gathering: Gathering<L::Stream>,
    desk: &mut Desk<'_, B>,
    signer: &mut G,
)
    requires few { length gathering.stamps.items ≤ most_together }
    ensures { AreAnswered L.takes_back L.Stream.contents B.Standing G.signs G.fault_count (gathered_in gathering)
        (hall source.old (tt {0}) desk.old signer.old) (hall source.new (tt {0}) desk.new signer.new) }
{
    let Gathering { stamps, last } = gathering;
    answer_together(source, stamps, desk, signer);
    if let Some(one) = last {
        answer_one(source, one, desk, signer);
    }
}
