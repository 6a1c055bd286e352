//! Lives that follow each other: what was committed is there, and losers are undone when they are in the way.

use script_runs::{Case, try_cases};
use std::test::Fail;

/// What stops leave.
const STOPS: [Case; 4] = [
    Case {
        script: "format\nopen\nbegin A\nput A x 1\ncommit A\nstop\nopen\nbegin B\nget B x\n",
        printed: "format ok\nopen commits=0 losers=0\nA begin\nA put x was none\nA commit 1\nstop\n\
            open commits=1 losers=0\nB begin\nB get x = 1\n",
    },
    Case {
        script: "format\nopen\nbegin A\nput A x 1\nstop\nopen\nbegin B\nget B x\ncommit B\nstop 7\nopen\n",
        printed: "format ok\nopen commits=0 losers=0\nA begin\nA put x was none\nstop\n\
            open commits=0 losers=0\nB begin\nB get x none\nB commit 1\nstop\n\
            open commits=1 losers=0\n",
    },
    // Of an operator's write the log has the argument alone.
    Case {
        script: "format\nopen\nbegin A\nop A add n 5\nop A add n 6\ncommit A\nstop\nopen\nbegin B\n\
            get B n\nstat\n",
        printed: "format ok\nopen commits=0 losers=0\nA begin\nA op add n was none\n\
            A op add n was = 5\nA commit 1\nstop\nopen commits=1 losers=0\nB begin\nB get n = 11\n\
            stat commits=1 losers=0 undone=0 repaired=0 pages=1 lost=0 restored=0\n",
    },
    // The End of an abort is durable with the next commit, and not before.
    Case {
        script: "format\nopen\nbegin A\nput A x 1\nbegin B\nput B y 1\ncommit B\nabort A\nstop\nopen\n\
            begin C\nget C x\nstat\ncommit C\nstop\nopen\n",
        printed: "format ok\nopen commits=0 losers=0\nA begin\nA put x was none\nB begin\n\
            B put y was none\nB commit 1\nA abort\nstop\nopen commits=1 losers=1\n\
            C begin\nC get x none\n\
            stat commits=1 losers=0 undone=1 repaired=0 pages=1 lost=0 restored=0\n\
            C commit 2\nstop\nopen commits=2 losers=0\n",
    },
];

/// Losers, each undone as a whole when one of its keys is wanted.
const LOSERS: [Case; 5] = [
    Case {
        script: "format\nopen\nbegin I\nput I x 1\ncommit I\nbegin A\nput A x 2\nbegin B\nput B y 1\n\
            commit B\nstop\nopen\nbegin C\nget C y\nstat\nget C x\nstat\n",
        printed: "format ok\nopen commits=0 losers=0\nI begin\nI put x was none\nI commit 1\nA begin\n\
            A put x was = 1\nB begin\nB put y was none\nB commit 2\nstop\nopen commits=2 losers=1\n\
            C begin\nC get y = 1\n\
            stat commits=2 losers=1 undone=0 repaired=0 pages=1 lost=0 restored=0\n\
            C get x = 1\n\
            stat commits=2 losers=0 undone=1 repaired=0 pages=1 lost=0 restored=0\n",
    },
    // The Checkpoint is before the loser's only write.
    Case {
        script: "format\nopen\nbegin A\nput A x 1\ncommit A\ncheckpoint\nbegin B\nput B x 2\nbegin C\n\
            put C y 1\ncommit C\nstop\nopen\nbegin D\nput D x 5\ncommit D\nstat\n",
        printed: "format ok\nopen commits=0 losers=0\nA begin\nA put x was none\nA commit 1\n\
            checkpoint ok\nB begin\nB put x was = 1\nC begin\nC put y was none\nC commit 2\nstop\n\
            open commits=2 losers=1\nD begin\nD put x was = 1\nD commit 3\n\
            stat commits=3 losers=0 undone=1 repaired=0 pages=1 lost=0 restored=0\n",
    },
    // It is behind the first write of the loser, and makes that durable.
    Case {
        script: "format\nopen\nbegin I\nput I x 1\ncommit I\nbegin A\nput A x 2\ncheckpoint\nput A y 2\n\
            stop\nopen\nbegin B\nget B y\nget B x\nstat\n",
        printed: "format ok\nopen commits=0 losers=0\nI begin\nI put x was none\nI commit 1\nA begin\n\
            A put x was = 1\ncheckpoint ok\nA put y was none\nstop\nopen commits=1 losers=1\n\
            B begin\nB get y none\nB get x = 1\n\
            stat commits=1 losers=0 undone=1 repaired=0 pages=1 lost=0 restored=0\n",
    },
    Case {
        script: "format\nopen\nbegin I\nput I a 1\nput I b 1\nput I c 1\ncommit I\nbegin A\nput A a 2\n\
            begin B\ndel B b\nput B d 2\nbegin C\nput C c 3\ncommit C\nstop\nopen\nbegin D\nget D c\n\
            stat\nput D b 5\nstat\nscan D % %\nstat\ncommit D\nstop\nopen\nbegin E\nscan E % %\nstat\n",
        printed: "format ok\nopen commits=0 losers=0\nI begin\nI put a was none\nI put b was none\n\
            I put c was none\nI commit 1\nA begin\nA put a was = 1\nB begin\nB del b was = 1\n\
            B put d was none\nC begin\nC put c was = 1\nC commit 2\nstop\nopen commits=2 losers=2\n\
            D begin\nD get c = 3\n\
            stat commits=2 losers=2 undone=0 repaired=0 pages=1 lost=0 restored=0\n\
            D put b was = 1\n\
            stat commits=2 losers=1 undone=2 repaired=0 pages=1 lost=0 restored=0\n\
            D scan % % pairs=3\nD row a = 1\nD row b = 5\nD row c = 3\n\
            stat commits=2 losers=0 undone=3 repaired=0 pages=1 lost=0 restored=0\n\
            D commit 3\nstop\nopen commits=3 losers=0\nE begin\n\
            E scan % % pairs=3\nE row a = 1\nE row b = 5\nE row c = 3\n\
            stat commits=3 losers=0 undone=0 repaired=0 pages=1 lost=0 restored=0\n",
    },
    // A request that is refused for a live transaction undoes no loser.
    Case {
        script: "format\nopen\nbegin A\nput A a 1\nbegin B\nput B b 1\ncommit B\nstop\nopen\nbegin C\n\
            put C b 2\nbegin D\nscan D % %\nstat\nabort C\nscan D % %\nstat\n",
        printed: "format ok\nopen commits=0 losers=0\nA begin\nA put a was none\nB begin\n\
            B put b was none\nB commit 1\nstop\nopen commits=1 losers=1\nC begin\nC put b was = 1\n\
            D begin\nD scan % % conflict C\n\
            stat commits=1 losers=1 undone=0 repaired=0 pages=1 lost=0 restored=0\n\
            C abort\nD scan % % pairs=1\nD row b = 1\n\
            stat commits=1 losers=0 undone=2 repaired=0 pages=1 lost=0 restored=0\n",
    },
];

#[test]
fn a_stop_leaves_what_was_committed(rt: HostRuntime) -> Result<(), Fail> {
    try_cases(&rt, rt.alloc(), &STOPS)
}

#[test]
fn losers_are_undone_when_they_are_in_the_way(rt: HostRuntime) -> Result<(), Fail> {
    try_cases(&rt, rt.alloc(), &LOSERS)
}
