//! The laws of replays, each as the contract of a function that does nothing.
ghost use Rattle.bp_replay.specs.Laws.{ReplaysTellTheRun, LogsOfStoriesReplay, OneEnding, ReplaysAlike};

/// A replay of the log of a run in which neither reading nor writing failed and memory did not run
/// out has printed the whole text of that run, and answers its verdict.
pub fn replays_tell_the_run()
    ensures { ReplaysTellTheRun }
{}

/// A replay of the log of a complete story of an accepted program has printed the whole text of
/// that story, and answers its verdict, whatever the injectors, unless reading or writing failed
/// or memory ran out: each record of such a story can be read back.
pub fn logs_of_stories_replay()
    ensures { LogsOfStoriesReplay }
{}

/// All replays of the same bytes in which neither reading nor writing failed and memory did not
/// run out end alike, and have printed the same text.
pub fn one_ending()
    ensures { OneEnding }
{}

/// A log of either version, whole or cut, and what a migration makes of it replay alike: both replays
/// end in the same way and have printed the same text, unless reading or writing failed or memory
/// ran out.
pub fn replays_alike()
    ensures { ReplaysAlike }
{}
