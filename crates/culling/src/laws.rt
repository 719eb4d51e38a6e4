//! What a user has of a run, command by command: it follows from the clause `outcome` of `run`.
ghost use Rattle.culling.specs.Promises.{CheckAccepts, CheckIsComplete, CheckIsCut, CheckRefuses, CullIsComplete};
ghost use Rattle.culling.specs.Promises.{CullIsCut, CullIsWhole, CutsLeaveFronts, DemoIsComplete, DemoIsCut};
ghost use Rattle.culling.specs.Promises.{DemoIsWhole, FaultsAreTold, FrameIsMissing, GroupsStopAtNotes};
ghost use Rattle.culling.specs.Promises.{LiveIsComplete, LiveIsCut, LiveIsWhole, LiveStopsAtNotes, NotesFaultsRose};
ghost use Rattle.culling.specs.Promises.{PictureIsComplete, PictureIsCut, PictureIsMissing, PictureIsWhole};
ghost use Rattle.culling.specs.Promises.{ReadFaultsRose, ReportFaultsRose, SceneIsRefused, UpgradeIsComplete};
ghost use Rattle.culling.specs.Promises.{UpgradeIsCut, UpgradeIsWhole};

/// A run that is done wrote all that its command writes of its input: of `cull` the report, and of groups the line of
/// each frame; of `live` the report and a live text, by counts that rise; the summary of `demo`, the upgraded scene,
/// the picture of a frame. What is called occluded is hidden, and what a picture shows is drawn. But for the lines of
/// `live` and of groups nothing is noted. `check` accepts only a log that `live` may have noted, and refuses only
/// another, with the number of its good lines.
pub fn done_is_whole()
    ensures cull { CullIsWhole }
    ensures live { LiveIsWhole }
    ensures demo { DemoIsWhole }
    ensures upgrade { UpgradeIsWhole }
    ensures picture { PictureIsWhole }
    ensures accepted { CheckAccepts }
    ensures refused { CheckRefuses }
{}

/// An input with a first fault ends as that, unless it failed or memory ran out, and no other does. A read fault has
/// its cause. A scene ends as done where memory lasts and no count of faults rises of a stream that its command reads
/// or writes: of `picture` one that has the frame, else it ends as Frame, and only then; of `check` one with a log that
/// is accepted, else it ends as Log.
pub fn runs_end_by_their_input()
    ensures refused { FaultsAreTold }
    ensures scene { SceneIsRefused }
    ensures unread { ReadFaultsRose }
    ensures cull { CullIsComplete }
    ensures live { LiveIsComplete }
    ensures demo { DemoIsComplete }
    ensures checked { CheckIsComplete }
    ensures upgrade { UpgradeIsComplete }
    ensures picture { PictureIsComplete }
    ensures missing { PictureIsMissing }
    ensures frame { FrameIsMissing }
{}

/// Where a sink failed or memory ran out, a beginning of the report stands, and of the notes' lines a beginning, with
/// the status's note behind it. A fault of the report or of the notes has its cause. Where the notes of `live` or of
/// groups failed, the report stands up to the frame whose lines are cut.
pub fn cuts_leave_fronts()
    ensures any { CutsLeaveFronts }
    ensures cull { CullIsCut }
    ensures live { LiveIsCut }
    ensures demo { DemoIsCut }
    ensures checked { CheckIsCut }
    ensures upgrade { UpgradeIsCut }
    ensures picture { PictureIsCut }
    ensures report { ReportFaultsRose }
    ensures notes { NotesFaultsRose }
    ensures live_notes { LiveStopsAtNotes }
    ensures group_notes { GroupsStopAtNotes }
{}
