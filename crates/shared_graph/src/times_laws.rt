//! Laws about the times of shared points and the ends of their boxes: functions with an empty body, whose contract is the law.
ghost use Rattle.shared_graph.specs.TimedLaws.{SettingsHold, StartHoldsTimes, EntriesKeepTimes, ReplaysHoldTimes, WindowsAreOpen, WidestAreThere};
ghost use Rattle.shared_graph.specs.TimedLaws.{TimesLieInside, TimesGoOn, BoxesDecouple};

/// Once all shared points are revisited, the final cells are least bounds as times and boxes want them.
pub fn settings_hold()
    ensures { SettingsHold }
{}

/// A state without times holds times.
pub fn start_holds_times()
    ensures { StartHoldsTimes }
{}

/// A legal entry keeps a state that holds times so.
pub fn entries_keep_times()
    ensures { EntriesKeepTimes }
{}

/// Every state that entries lead to holds times.
pub fn replays_hold_times()
    ensures { ReplaysHoldTimes }
{}

/// The window of a point that may get its time is there and is not empty, and the time of the rule lies in it.
pub fn windows_are_open()
    ensures { WindowsAreOpen }
{}

/// Once all shared points have times, the widest ends of each are there, and are the widest that the other ends leave.
pub fn widest_are_there()
    ensures { WidestAreThere }
{}

/// The time of each point lies in its box, and the box within the least bounds with z.
pub fn times_lie_inside()
    ensures { TimesLieInside }
{}

/// Times and widened ends stay what they are.
pub fn times_go_on()
    ensures { TimesGoOn }
{}

/// Once all shared points have times, their boxes are a decoupling of the network, in which each widened end is tight.
pub fn boxes_decouple()
    ensures { BoxesDecouple }
{}
