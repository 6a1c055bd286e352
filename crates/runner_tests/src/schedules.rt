//! Transactions that take turns, and what a map answers that has them one after the other, by the order of their commits.

use script_runs::{Case, try_cases, try_script};
use std::test::Fail;

/// One or two transactions: what one wrote it reads itself, nobody else reads it, and an abort takes it back.
const FEW: [Case; 5] = [
    Case {
        script: "format\nopen\nbegin A\nput A x 1\ndel A x\nget A x\nabort A\nbegin B\nget B x\ncommit B\n",
        printed: "format ok\nopen commits=0 losers=0\nA begin\nA put x was none\nA del x was = 1\n\
            A get x none\nA abort\nB begin\nB get x none\nB commit 1\n",
    },
    Case {
        script: "format\nopen\nbegin A\nbegin B\nput A x 1\nget B x\nabort A\nget B x\n",
        printed: "format ok\nopen commits=0 losers=0\nA begin\nB begin\nA put x was none\n\
            B get x conflict A\nA abort\nB get x none\n",
    },
    // The upper bound of a scan isn't in it.
    Case {
        script: "format\nopen\nbegin A\nbegin B\nscan A a m\nput B c 1\nput B m 1\n",
        printed: "format ok\nopen commits=0 losers=0\nA begin\nB begin\nA scan a m pairs=0\n\
            B put c conflict A\nB put m was none\n",
    },
    Case {
        script: "format\nopen\nbegin A\nop A add n 5\nabort A\nbegin B\nget B n\n",
        printed: "format ok\nopen commits=0 losers=0\nA begin\nA op add n was none\nA abort\n\
            B begin\nB get n none\n",
    },
    // Keys, values and bounds are printed as they are read.
    Case {
        script: "format\nopen\nbegin A\nput A %00 %\nput A %25%20 %ff\ndel A %25%20\nput A a %25\nscan A %00 %ff\n",
        printed: "format ok\nopen commits=0 losers=0\nA begin\nA put %00 was none\n\
            A put %25%20 was none\nA del %25%20 was = %ff\nA put a was none\n\
            A scan %00 %ff pairs=2\nA row %00 = %\nA row a = %25\n",
    },
];

/// Three transactions over the keys x, y and z, whose values are 1.
const THREE: [Case; 6] = [
    // C, A, B.
    Case {
        script: "put A x a\nput B y b\nput C z c\nget A x\ncommit C\nget A z\ncommit A\nget B x\n\
            get B z\ncommit B\n",
        printed: "A put x was = 1\nB put y was = 1\nC put z was = 1\nA get x = a\nC commit 2\n\
            A get z = c\nA commit 3\nB get x = a\nB get z = c\nB commit 4\n\
            Q begin\nQ scan % % pairs=3\nQ row x = a\nQ row y = b\nQ row z = c\n",
    },
    // C, B.
    Case {
        script: "put A x a\nput B y b\nabort A\nput C x c\ndel C z\ncommit C\nget B x\nget B z\n\
            put B z b\ncommit B\n",
        printed: "A put x was = 1\nB put y was = 1\nA abort\nC put x was = 1\nC del z was = 1\n\
            C commit 2\nB get x = c\nB get z none\nB put z was none\nB commit 3\n\
            Q begin\nQ scan % % pairs=3\nQ row x = c\nQ row y = b\nQ row z = b\n",
    },
    // A, C, with operators.
    Case {
        script: "op A add x 5\nop B add y 7\nop A add x 1\nop C max z 9\nabort B\nop C add y 2\n\
            commit A\nop C join x 0\ncommit C\n",
        printed: "A op add x was = 1\nB op add y was = 1\nA op add x was = 6\nC op max z was = 1\n\
            B abort\nC op add y was = 1\nA commit 2\nC op join x was = 7\nC commit 3\n\
            Q begin\nQ scan % % pairs=3\nQ row x = 70\nQ row y = 3\nQ row z = 9\n",
    },
    // B alone. A scan holds its range, also where it has no key.
    Case {
        script: "scan A x z\nput B y 5\nput C z 5\nput B yy 2\nabort A\nput B y 6\nput B yy 2\n\
            abort C\nget B z\ncommit B\n",
        printed: "A scan x z pairs=2\nA row x = 1\nA row y = 1\nB put y conflict A\n\
            C put z was = 1\nB put yy conflict A\nA abort\nB put y was = 1\nB put yy was none\n\
            C abort\nB get z = 1\nB commit 2\n\
            Q begin\nQ scan % % pairs=4\nQ row x = 1\nQ row y = 6\nQ row yy = 2\nQ row z = 1\n",
    },
    // B, A, C, which only read. The conflict is with the oldest of those who read.
    Case {
        script: "get A x\nget C x\nget B x\nput A x a\ncommit B\nput A x a\nscan C y zz\ncommit A\n\
            get C x\ncommit C\n",
        printed: "A get x = 1\nC get x = 1\nB get x = 1\nA put x conflict B\nB commit 2\n\
            A put x conflict C\nC scan y zz pairs=2\nC row y = 1\nC row z = 1\nA commit 3\n\
            C get x = 1\nC commit 4\n\
            Q begin\nQ scan % % pairs=3\nQ row x = 1\nQ row y = 1\nQ row z = 1\n",
    },
    // None.
    Case {
        script: "put A x a\ndel B y\nput C w c\nput A x aa\nabort C\nget B w\nabort A\nput B x b\n\
            del B x\nabort B\n",
        printed: "A put x was = 1\nB del y was = 1\nC put w was none\nA put x was = a\nC abort\n\
            B get w none\nA abort\nB put x was = 1\nB del x was = b\nB abort\n\
            Q begin\nQ scan % % pairs=3\nQ row x = 1\nQ row y = 1\nQ row z = 1\n",
    },
];

const BEFORE: &str = "format\nopen\nbegin Z\nput Z x 1\nput Z y 1\nput Z z 1\ncommit Z\n\
    begin A\nbegin B\nbegin C\n";

const BEFORE_PRINTED: &str = "format ok\nopen commits=0 losers=0\nZ begin\nZ put x was none\n\
    Z put y was none\nZ put z was none\nZ commit 1\nA begin\nB begin\nC begin\n";

#[test]
fn an_abort_takes_back_what_nobody_else_read(rt: HostRuntime) -> Result<(), Fail> {
    try_cases(&rt, rt.alloc(), &FEW)
}

#[test]
fn three_transactions_are_those_of_a_map_in_the_order_of_commits(
    rt: HostRuntime,
) -> Result<(), Fail> {
    for case in THREE {
        let alloc = rt.alloc();
        let Case { script, printed } = case;
        let script = format!(in alloc; "{BEFORE}{script}begin Q\nscan Q % %\n")?;
        let printed = format!(in alloc; "{BEFORE_PRINTED}{printed}")?;
        try_script(&rt, alloc, &script, &printed)?;
    }
    Ok(())
}
