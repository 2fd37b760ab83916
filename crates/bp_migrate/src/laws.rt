//! The laws of migrations, each as the contract of a function that does nothing.
ghost use Rattle.bp_migrate.specs.Laws.{LogsMigrate, OnlyLogsMigrate, MigratedAreLogs, OneEnding};

/// What ends as a migration of a log of either version, and neither reading nor writing failed nor
/// memory ran out, has written the log of the second version of its header and records.
pub fn logs_migrate()
    ensures { LogsMigrate }
{}

/// What migrates to its end was a log of one version.
pub fn only_logs_migrate()
    ensures { OnlyLogsMigrate }
{}

/// What a log migrates to is a log of the second version, of the same header and records.
pub fn migrated_are_logs()
    ensures { MigratedAreLogs }
{}

/// What ends as a migration of some bytes, and neither reading nor writing failed nor memory was
/// wanting, ends as each such migration of them does, and has written the same text.
pub fn one_ending()
    ensures { OneEnding }
{}
