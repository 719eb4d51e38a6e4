//! How a run ends whose command line is refused.
ghost use Rattle.std.specs.Prelude.{◌≡◌};
ghost use Rattle.command_words.specs.Words.{AreWords};
ghost use Rattle.cull_base.specs.Stream.{IsNoted};
ghost use Rattle.frame_reports.specs.Notes.{IsNotedFirst, status_text, usage_text};
ghost use Rattle.culling.specs.Runs.{refusal_status};

use command_words::Refusal;
use cull_base::{Sink, SinkError, write_whole};
use frame_reports::{Failure, Status};

/// Notes that the command line is refused and why, as far as the sink takes it, and tells the status.
pub fn end_refused<E: Sink>(refusal: &Refusal, notes: &mut E) -> Status
    ensures value { result ≡ refusal_status refusal.now }
    ensures noted_words { AreWords refusal.now
        → IsNotedFirst (E.says notes.old) (E.says notes.new) usage_text }
    ensures noted_memory { (AreWords refusal.now → ⊥)
        → IsNoted (E.says notes.old) (E.says notes.new) (status_text Status.Memory) }
{
    match refusal {
        Refusal::Memory => Failure::Memory.end(notes),
        Refusal::Words(text) => {
            // What can't be noted is lost: the status tells it still.
            let _ = note_usage(notes, text);
            Status::Usage
        }
    }
}

// Notes that the command line is refused, and then what there is to say of it.
fn note_usage<E: Sink>(notes: &mut E, text: &Option<String>) -> Result<(), SinkError>
    ensures { IsNotedFirst (E.says notes.old) (E.says notes.new) usage_text }
{
    write_whole(notes, b"usage refused\n")?;
    match text {
        Some(text) => write_whole(notes, text.as_bytes()),
        None => Ok(()),
    }
}
