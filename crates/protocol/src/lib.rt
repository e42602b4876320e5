// What the protocol promises, claimed of every run of the machine in specs/. Nothing here runs: each function stands for a theorem.
#![tactic(auto)]

ghost use Rattle.protocol.specs.Cases.{TableHolds};
ghost use Rattle.protocol.specs.Promise.{Always, BaseAgrees, BaseSound, Longer, Promise, ReadsRight, EndsRight, AlikeAs, NeverStuck, Nearby, NoRing, NoGap, ToldStays};

// All of the below at once: what the programs' contracts cite.
pub fn every_run_keeps_the_promise()
    ensures { Always Promise }
{}

// The plan of today, key k in house k mod 16, is sound.
pub fn the_base_is_sound()
    ensures { BaseSound }
{}

// Whatever is noted, heard or sent for an order, and all that a write is given, is the serial value at its place.
pub fn reads_are_right()
    ensures { Always ReadsRight }
{}

// Where all is done, every key has what doing all orders serially leaves.
pub fn ends_right()
    ensures { Always EndsRight }
{}

// Two runs over one log never say different things of an order.
pub fn runs_are_alike()
    ensures { Always AlikeAs }
{}

// A finite run of calm deeds, without a message from before, does everything everywhere.
pub fn never_stuck()
    ensures { Always NeverStuck }
{}

// While anything is undone, a look or a write is at most growing, syncing, telling and hearing away.
pub fn work_is_near()
    ensures { Always Nearby }
{}

// There is no set of tasks in which each waits for another of the set.
pub fn nobody_waits_in_a_ring()
    ensures { Always NoRing }
{}

// Of the orders that write a key in a house, those done there are the first so many.
pub fn no_gap()
    ensures { Always NoGap }
{}

// As long as some house has not copied beyond an order, what was told of it can be told again, the very same.
pub fn what_was_told_stays()
    ensures { Always ToldStays }
{}

// The log only grows: a run over a log is a run over every longer one.
pub fn the_log_may_grow()
    ensures longer { Longer }
    ensures base { BaseAgrees }
{}

// What a house may do next, in worked cases: each row of the table holds.
pub fn the_cases_hold()
    ensures { TableHolds }
{}
