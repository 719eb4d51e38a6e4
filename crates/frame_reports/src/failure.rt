//! How a run ends: its status, and what is noted of a run that isn't done.
ghost use Rattle.std.specs.Prelude.{◌≡◌, [], ◌∷◌, ◌++◌, ◌≤◌, length, codes};

use cull_base::{Memory, Sink, SinkError};
use live_check::LogError;
use scene_reader::SceneError;
use text_lines::Line;

/// How a run ended.
#[derive(Clone, Copy, Debug, PartialEq, Eq)]
pub enum Status {
    /// The whole input was read and the whole report written.
    Done,
    /// The command line is no command.
    Usage,
    /// The input isn't a scene.
    Scene,
    /// The input couldn't be read.
    ReadFault,
    /// The report couldn't be written.
    ReportFault,
    /// The lines of `live`, or those of `--group`, couldn't be noted.
    NotesFault,
    /// Out of memory.
    Memory,
    /// The log that was checked is refused.
    Log,
    /// The scene has no such frame.
    Frame,
}

/// Why a run isn't done.
#[derive(Clone, Copy, Debug, PartialEq, Eq)]
pub enum Failure {
    Scene(SceneError),
    ReadFault,
    ReportFault,
    NotesFault,
    Memory,
    /// The log that was checked is refused. The report tells how many of its lines are good.
    Log,
    /// The scene has no such frame: its number, and how many there are.
    Frame { frame: u32, frames: u32 },
}

impl From<SceneError> for Failure {
    ghost use Rattle.frame_reports.specs.Failures.{failure_of};

    ghost from_gives = { λ e f. f ≡ failure_of e };

    fn from(error: SceneError) -> Failure {
        match error {
            SceneError::Read => Failure::ReadFault,
            SceneError::Memory => Failure::Memory,
            refusal => Failure::Scene(refusal),
        }
    }
}

impl From<SinkError> for Failure {
    ghost use Rattle.frame_reports.specs.Failures.{sink_failure};

    ghost from_gives = { λ e f. f ≡ sink_failure e };

    fn from(error: SinkError) -> Failure {
        match error {
            SinkError::Failed => Failure::ReportFault,
            SinkError::Memory => Failure::Memory,
        }
    }
}

impl From<Memory> for Failure {
    ghost use Rattle.frame_reports.specs.declared.failure.Failure.TheVariants as failures;

    ghost from_gives = { λ _ f. f ≡ failures.Memory };

    fn from(_: Memory) -> Failure {
        Failure::Memory
    }
}

impl From<LogError> for Failure {
    ghost use Rattle.frame_reports.specs.Failures.{log_failure};

    ghost from_gives = { λ e f. f ≡ log_failure e };

    fn from(error: LogError) -> Failure {
        match error {
            LogError::Read => Failure::ReadFault,
            LogError::Memory => Failure::Memory,
        }
    }
}

impl Status {
    ghost use Rattle.frame_reports.specs.Failures.{code_of};

    /// The process's exit status.
    pub fn code(&self) -> u8
        ensures { result ≡ code_of self.now }
    {
        match self {
            Status::Done => 0,
            Status::Usage => 2,
            Status::Scene => 3,
            Status::ReadFault => 4,
            Status::ReportFault => 5,
            Status::NotesFault => 6,
            Status::Memory => 7,
            Status::Log => 9,
            Status::Frame => 10,
        }
    }
}

// A line of one text and its newline. Condition: there is room.
fn line_of(text: &[u8]) -> Line
    requires { length text.now ≤ 100 }
    ensures { result ≡ text.now ++ 10 ∷ [] }
{
    let mut line = Line::begin(text);
    line.end();
    line
}

impl Failure {
    ghost use Rattle.frame_reports.specs.Failures.{status_of};
    ghost use Rattle.frame_reports.specs.Notes.{refusal_text, note_text};
    ghost use Rattle.cull_base.specs.Stream.{IsNoted};

    pub fn status(&self) -> Status
        ensures { result ≡ status_of self.now }
    {
        match self {
            Failure::Scene(_) => Status::Scene,
            Failure::ReadFault => Status::ReadFault,
            Failure::ReportFault => Status::ReportFault,
            Failure::NotesFault => Status::NotesFault,
            Failure::Memory => Status::Memory,
            Failure::Log => Status::Log,
            Failure::Frame { .. } => Status::Frame,
        }
    }

    fn line(&self) -> Line
        ensures { result ≡ note_text self.now }
    {
        match self {
            Failure::Scene(error) => refusal_line(error),
            Failure::ReadFault => line_of(b"read fault"),
            Failure::ReportFault => line_of(b"report fault"),
            // there is nowhere to note it
            Failure::NotesFault => Line::empty(),
            // the report tells it
            Failure::Log => Line::empty(),
            Failure::Memory => line_of(b"out of memory"),
            Failure::Frame { frame, frames } => missing_line(*frame, *frames),
        }
    }

    /// Notes the failure, as far as the sink takes it, and tells its status. It takes no memory of its own.
    pub fn end<E: Sink>(&self, notes: &mut E) -> Status
        ensures value { result ≡ status_of self.now }
        ensures noted { IsNoted (E.says notes.old) (E.says notes.new) (note_text self.now) }
        ensures faults_stay { (E.says notes.old).faults ≤ (E.says notes.new).faults }
    {
        // What can't be noted is lost: the status tells it still.
        let _ = self.line().write_to(notes);
        self.status()
    }
}

ghost use Rattle.std.specs.Fmt.{decimal};
ghost use Rattle.text_lines.specs.Lines.{line};
ghost use Rattle.frame_reports.specs.Notes.{missing_text, refusal_text};

// The line of a frame that isn't there, and of how many there are.
#[tactic(auto, unfolding(crate::specs::Notes::missing_text))]
fn missing_line(frame: u32, frames: u32) -> Line
    ensures { result ≡ missing_text frame frames }
{
    let mut line = Line::begin(b"no");
    line.word(b"such");
    line.word(b"frame");
    line.number(u64::from(frame));
    line.number(u64::from(frames));
    line.end();
    line
}

// What the line of a refused scene begins with: the refusal's number.
fn refusal(number: u64) -> Line
    ensures value { result ≡ codes "scene" ++ 32 ∷ (codes "refused" ++ 32 ∷ decimal number) }
    ensures room { length result ≤ 34 }
{
    let mut line = Line::begin(b"scene");
    line.word(b"refused");
    line.number(number);
    line
}

// The line of a refusal that its number tells alone.
fn refused(number: u64) -> Line
    ensures { result ≡ line (codes "scene" ∷ codes "refused" ∷ decimal number ∷ []) }
{
    let mut line = refusal(number);
    line.end();
    line
}

// The line of a refusal that a number besides tells.
fn refused_at(number: u64, at: u64) -> Line
    ensures { result ≡ line (codes "scene" ∷ codes "refused" ∷ decimal number ∷ decimal at ∷ []) }
{
    let mut line = refusal(number);
    line.number(at);
    line.end();
    line
}

// The line of a refusal that two numbers besides tell.
fn refused_by(number: u64, first: u64, second: u64) -> Line
    ensures { result ≡ line (codes "scene" ∷ codes "refused" ∷ decimal number ∷ decimal first ∷ decimal second ∷ []) }
{
    let mut line = refusal(number);
    line.number(first);
    line.number(second);
    line.end();
    line
}

#[tactic(auto, unfolding(crate::specs::Notes::refusal_text))]
fn refusal_line(error: &SceneError) -> Line
    ensures { result ≡ refusal_text error.now }
{
    match *error {
        SceneError::Truncated { need, have } => refused_by(1, u64::from(need), u64::from(have)),
        SceneError::BadMagic => refused(2),
        SceneError::BadVersion(version) => refused_at(3, u64::from(version)),
        SceneError::BadSize(width, height) => refused_by(4, u64::from(width), u64::from(height)),
        SceneError::BadNear(near) => refused_at(5, u64::from(near)),
        SceneError::BadWinding(winding) => refused_at(6, u64::from(winding)),
        SceneError::BadReserved(reserved) => refused_at(7, u64::from(reserved)),
        SceneError::BadCount { field, value } => refused_by(8, u64::from(field), u64::from(value)),
        SceneError::Trailing => refused(9),
        SceneError::BadVertex(i) => refused_at(10, u64::from(i)),
        SceneError::BadIndex { table, i } => refused_by(11, u64::from(table), u64::from(i)),
        SceneError::BadKind(i) => refused_at(12, u64::from(i)),
        SceneError::BadObject(i) => refused_at(13, u64::from(i)),
        SceneError::BadCamera(i) => refused_at(14, u64::from(i)),
        SceneError::BadGrade(grade) => refused_at(16, u64::from(grade)),
        SceneError::BadBatch(i) => refused_at(17, u64::from(i)),
        SceneError::Read | SceneError::Memory => line_of(b"scene refused"),
    }
}
