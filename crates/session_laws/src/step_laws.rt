//! What a task makes of a session, carried by functions that do nothing.

ghost use Rattle.std.specs.Prelude.{List};
ghost use Rattle.session_laws.specs.EachTask.{EachTaskHoldsAtFirst, EachTaskHoldsWithOneMore, EarlierTasksStay};
ghost use Rattle.session_laws.specs.EachTask.{GrownViewsGrow, KeptViewsAreGrown, TheFirstViewIsGrown};
ghost use Rattle.session_laws.specs.EachTask.{TheLastTaskIsAll};
ghost use Rattle.session_laws.specs.Steps.{StepsAreSeen, StepsGrow, StepsHold, StepsHoldOfTheLast, StepsKeep};
ghost use Rattle.session_laws.specs.Steps.{LastRowsAreRead, StepsKeepLeases, StepsKeepPlaces};
ghost use Rattle.session_laws.specs.Views.{PluginView};

use plugin_registry::Promise;

/// What the task was handed, and what it did, is what is said of the session after it.
pub fn steps_are_seen<P: Promise>()
    ensures { (plugins : List PluginView) → StepsAreSeen (record {
      plugins = plugins;
      may_call = P.may_call;
      may_result = P.may_result;
    }) }
{}

/// A task leaves what was there.
pub fn steps_grow<P: Promise>()
    ensures { (plugins : List PluginView) → StepsGrow (record {
      plugins = plugins;
      may_call = P.may_call;
      may_result = P.may_result;
    }) }
{}

/// A task leaves what is kept.
pub fn steps_keep<P: Promise>()
    ensures view { (plugins : List PluginView) → StepsKeep (record {
      plugins = plugins;
      may_call = P.may_call;
      may_result = P.may_result;
    }) }
    ensures leases { (plugins : List PluginView) → StepsKeepLeases (record {
      plugins = plugins;
      may_call = P.may_call;
      may_result = P.may_result;
    }) }
{}

/// The places of the attachments' last rows stay right, and give the attachments' rows.
pub fn steps_keep_places<P: Promise>()
    ensures places { (plugins : List PluginView) → StepsKeepPlaces (record {
      plugins = plugins;
      may_call = P.may_call;
      may_result = P.may_result;
    }) }
    ensures rows { LastRowsAreRead }
{}

/// The session's law holds of a task.
pub fn steps_hold<P: Promise>()
    ensures holds { (plugins : List PluginView) → StepsHold (record {
      plugins = plugins;
      may_call = P.may_call;
      may_result = P.may_result;
    }) }
    ensures last { (plugins : List PluginView) → StepsHoldOfTheLast (record {
      plugins = plugins;
      may_call = P.may_call;
      may_result = P.may_result;
    }) }
{}

/// What a session had up to a task stays so over later tasks, and up to the last task it is all that the session has.
/// `IsGrown` holds of a session that began, and stays.
pub fn tasks_stay()
    ensures earlier { EarlierTasksStay }
    ensures last { TheLastTaskIsAll }
    ensures first { TheFirstViewIsGrown }
    ensures grown { GrownViewsGrow }
    ensures kept { KeptViewsAreGrown }
{}

/// The session's law holds of each task, where it held of each when it was the last. A session carries it of the last
/// task alone: whoever runs one keeps `IsGrown` by [`tasks_stay`], and `EachTaskHolds` by this.
pub fn each_task_holds<P: Promise>()
    ensures first { (plugins : List PluginView) → EachTaskHoldsAtFirst (record {
      plugins = plugins;
      may_call = P.may_call;
      may_result = P.may_result;
    }) }
    ensures more { (plugins : List PluginView) → EachTaskHoldsWithOneMore (record {
      plugins = plugins;
      may_call = P.may_call;
      may_result = P.may_result;
    }) }
{}
