//! Answers and texts on an output.
ghost use Rattle.std.specs.{Prelude.◌≡◌, Prelude.OnOk, Prelude.OnErr, Prelude.IfErr, Io.KnownBytes.Appends};
ghost use Rattle.audit.specs.Failures.{HasFailed};
ghost use Rattle.console.specs.Writes.{Begins};

use crate::fault::InputFault;
use audit::{Output, write_octets};

/// Writes octets and flushes them. Where either fails it is `Failed`: a beginning of them was written then.
pub fn write_answer<W: Output>(octets: &[u8], output: &mut W) -> Result<(), InputFault>
    ensures written { OnOk result (Appends (W.contents output.old) (W.contents output.new) octets.now) }
    ensures begun { OnErr result (Begins (W.contents output.old) (W.contents output.new) octets.now) }
    ensures sent { OnOk result (W.failures output.new ≡ W.failures output.old) }
    ensures failed { OnErr result (HasFailed (W.failures output.old) (W.failures output.new)) }
    ensures faults { IfErr result (λ fault. fault ≡ InputFault.Failed) }
{
    if write_octets(output, octets) < octets.len() {
        return Err(InputFault::Failed);
    }
    if output.send() {
        Ok(())
    } else {
        Err(InputFault::Failed)
    }
}

/// Writes a text as `write_answer` does.
pub fn write_text<W: Output>(text: &str, output: &mut W) -> Result<(), InputFault>
    ensures written { OnOk result (Appends (W.contents output.old) (W.contents output.new) text.now) }
    ensures begun { OnErr result (Begins (W.contents output.old) (W.contents output.new) text.now) }
    ensures sent { OnOk result (W.failures output.new ≡ W.failures output.old) }
    ensures failed { OnErr result (HasFailed (W.failures output.old) (W.failures output.new)) }
    ensures faults { IfErr result (λ fault. fault ≡ InputFault.Failed) }
{
    write_answer(text.as_bytes(), output)
}
