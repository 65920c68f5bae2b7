ghost use Rattle.voy_export.specs.Laws.{CommitsAreLawful, ExportsAreNext, MovesKeepSound, StepsKeepSound};

use voy_feed::kept_go_on;
use voy_meta::{records_join, records_say};
use voy_queue::{puts_are_behind, puts_go_on, written_reads_back};

/// Law: each step of an export that may be done keeps the export disk sound.
pub fn steps_keep_sound()
    ensures { StepsKeepSound }
{
    // The laws of records; there is nothing to run.
    records_join();
    records_say();
}

/// Law: where each image of an export disk is sound, and steps that may be done lead from them, each image after is sound.
pub fn moves_keep_sound()
    ensures { MovesKeepSound }
{
    steps_keep_sound();
}

/// Law: what an export adds to a sound disk are the next events of the whole queue.
pub fn exports_are_next()
    ensures { ExportsAreNext }
{
    // The law of kept changes; there is nothing to run.
    kept_go_on();
}

/// Law: the next events, put behind a sound queue and committed, are steps that may be done.
pub fn commits_are_lawful()
    ensures { CommitsAreLawful }
{
    // The laws of the queue and of records; there is nothing to run.
    puts_are_behind();
    puts_go_on();
    written_reads_back();
    records_join();
    records_say();
}
