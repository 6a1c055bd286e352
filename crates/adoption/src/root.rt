//! A descent's first page.
ghost use Rattle.std.specs.Prelude.{◌≡◌, IfErr, IfOk, IfSome, OnOk, true};
ghost use Rattle.foster_tree.specs.Nows.{pages_in};
ghost use Rattle.adoption.specs.Descents.{BeginsTidy, Fails, GoesOn, standing};

use foster_tree::see_image;
use front::Pass;
use page_ops::{Entering, Held, Life, Pages};
use smo::grow;
use std::alloc::Global;
use std::sync::Wait;
use store_model::Fault;
use wal_record::Entry;

/// The root in hand, from which a descent goes on. None where it had a foster child and grew: the new root is put back,
/// and the descent is to start again.
pub(crate) fn begin<N: Life, J: Entering<N>, P: Pages<N, J>, R: Wait>(
    rt: &R,
    alloc: Global,
    pages: &mut P,
    journal: &mut J,
    root: Held<N>,
    pass: &mut Pass<Entry, N>,
) -> Result<Option<Held<N>>, Fault>
    requires taken { (P.desk pages.old).out ≡ 1 }
    requires reserved { (P.desk pages.old).reserves ≡ true }
    requires root { root.page ≡ 1 }
    ensures same { IfOk result (λ found. IfSome found (λ held. held ≡ root)) }
    ensures taken { IfOk result (λ found. (P.desk pages.new).out ≡ pages_in found) }
    ensures reserved { IfOk result (λ found. IfSome found (λ held. (P.desk pages.new).reserves ≡ true)) }
    ensures tidy { IfOk result (λ found. IfSome found (BeginsTidy N.opens pass.new.log)) }
    ensures goes { OnOk result (GoesOn (standing (P.desk pages.old) (J.account journal.old) pass.old) (standing (P.desk pages.new) (J.account journal.new) pass.new)) }
    ensures fails { IfErr result (Fails N.opens N.entries N.session_entries N.log_faults N.made (standing (P.desk pages.old) (J.account journal.old) pass.old) (standing (P.desk pages.new) (J.account journal.new) pass.new)) }
{
    if root.state.foster.is_none() {
        return Ok(Some(root));
    }
    if root.state.level == 255 {
        return Ok(Some(root));
    }
    let mut root = root;
    see_image(rt, journal, &mut root, pass);
    match grow(rt, alloc, pages, journal, &mut root, pass) {
        Ok(None) => Ok(Some(root)),
        Ok(Some(_)) => {
            pages.put_back(rt, &mut Some(root));
            Ok(None)
        }
        Err(fault) => {
            pages.put_back(rt, &mut Some(root));
            Err(fault)
        }
    }
}
