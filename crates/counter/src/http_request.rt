//! One HTTP request, which is read and answered at a desk.
ghost use Rattle.std.specs.Prelude.{List};
ghost use Rattle.desk.specs.MachineRuns.{Told};
ghost use Rattle.service.specs.Served.{Serves};
ghost use Rattle.counter.specs.HttpRequest.{IsExchanged, turn_of};

use book::Book;
use cms::Signer;
use operations::{DeskOperation, OperationFault, SignedDesk};
use service::{Served, Surroundings, serve_over};
use std::alloc::Global;
use std::io::{Read, Write};

/// One HTTP request, which is read and answered.
#[derive(Drop)]
pub struct OneRequest {
    /// For what is read and written.
    pub alloc: Global,
    /// The clock's reading, in microseconds since 1970-01-01T00:00:00Z.
    pub reading: i64,
    /// The octets of the database when it was opened, if they are known.
    pub octets: Option<u64>,
}

impl<R: Read, W: Write> DeskOperation<R, W> for OneRequest {
    type Answer = Served;

    type Means = ();

    ghost lacks = { λ _. ⊥ };

    ghost answers = { λ exchange file reader reader' writer writer' served. IsExchanged file exchange.reading
        (R.remaining reader) (R.remaining reader') (W.contents writer) (W.contents writer') served };

    ghost moves = { λ _ _ g signs exchange visit served. (steps : List Told) × Serves g signs.signs signs.fault_count
        W.contents exchange.reading (turn_of R.remaining visit) steps served };

    fn prepare(&self) -> Result<(), OperationFault> {
        Ok(())
    }

    fn perform<B: Book + Drop, G: Signer>(
        self,
        _means: (),
        signed: &mut SignedDesk<'_, B, G>,
        reader: &mut R,
        writer: &mut W,
    ) -> Served {
        let SignedDesk { desk, signer } = signed;
        let surroundings = Surroundings {
            alloc: self.alloc,
            reading: self.reading,
            octets: self.octets,
        };
        serve_over(surroundings, reader, writer, desk, signer)
    }
}
