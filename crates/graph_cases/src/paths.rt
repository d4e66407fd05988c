//! All paths of graphs.
use crate::texts::{ENDLESS, STRAIGHT, graph_of, order_of};
use path_expr::{Def, Ref, definitions_name_earlier_ones, paths};
use std::alloc::Global;
use std::test::Fail;

/// A body, the definitions, and what all paths are.
type Case<'a> = (&'a str, &'a [Def], Ref);

/// Whether the paths of the graph of a case are those of the case.
fn is_as(alloc: Global, case: &Case) -> Result<bool, Fail> {
    let (body, defs, whole) = case;
    let graph = graph_of(alloc, body)?;
    let order = order_of(alloc, &graph)?;
    let report = paths(alloc, &graph, order.as_slice())?;
    Ok(report.defs.as_slice() == *defs && report.whole == *whole)
}

#[test]
fn worked_paths(rt: HostRuntime) -> Result<(), Fail> {
    definitions_name_earlier_ones();
    let cases: [Case; 6] = [
        // The smallest graph has one path.
        ("", &[], Ref::Arc(1)),
        // A straight procedure is one product.
        (
            STRAIGHT,
            &[
                Def::Product(Ref::Arc(1), Ref::Arc(2)),
                Def::Product(Ref::Def(1), Ref::Arc(3)),
                Def::Product(Ref::Def(2), Ref::Arc(4)),
            ],
            Ref::Def(3),
        ),
        // Two ways are a sum.
        (
            "IF x = 1;y := x;ENDIF;",
            &[
                Def::Product(Ref::Arc(1), Ref::Arc(2)),
                Def::Product(Ref::Arc(1), Ref::Arc(3)),
                Def::Product(Ref::Def(1), Ref::Arc(4)),
                Def::Sum(Ref::Def(2), Ref::Def(3)),
                Def::Product(Ref::Def(4), Ref::Arc(5)),
            ],
            Ref::Def(5),
        ),
        // The lines are taken in the order 1, 4, 5, 6, 3, and arc 3 leaves a line that is not reached.
        (
            "GOTO a;SKIP;LABEL a;IF x = 1;GOTO a;ENDIF;",
            &[
                Def::Product(Ref::Arc(1), Ref::Arc(2)),
                Def::Product(Ref::Arc(4), Ref::Arc(5)),
                Def::Product(Ref::Arc(4), Ref::Arc(6)),
                Def::Product(Ref::Def(2), Ref::Arc(7)),
                Def::Product(Ref::Def(3), Ref::Arc(8)),
                Def::Star(Ref::Def(4)),
                Def::Product(Ref::Def(1), Ref::Def(6)),
                Def::Product(Ref::Def(7), Ref::Def(5)),
            ],
            Ref::Def(8),
        ),
        // The first step of the plan, the way into the loop, and the star of the loop are used by no definition.
        (
            "IF x = 1;LOOP;ENDLOOP;ENDIF;",
            &[
                Def::Product(Ref::Arc(1), Ref::Arc(3)),
                Def::Product(Ref::Def(1), Ref::Arc(6)),
            ],
            Ref::Def(2),
        ),
        // The last line is not reached.
        (ENDLESS, &[], Ref::Zero),
    ];
    for case in cases.iter() {
        let (body, _, _) = case;
        assert!(rt; is_as(rt.alloc(), case)?, "{body}");
    }
    Ok(())
}
