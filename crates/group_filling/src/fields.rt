//! The fields of a record that the journal fills in.
ghost use Rattle.std.specs.Prelude.{◌≡◌};
ghost use Rattle.group_filling.specs.Fields as fields;
ghost use Rattle.group_filling.specs.Fields.{with_fields};

use store_model::{Lsn, PageNo};
use wal_record::Record;

/// The fields of a record that the journal fills in, as far as it has them: the LSNs of the records before it, of its
/// transaction, of its page and of its second page; its page; a page that it makes; how many pages a loss tells.
#[derive(Clone, Copy)]
pub struct Fields {
    pub prev: Lsn,
    pub page: PageNo,
    pub page_prev: Lsn,
    pub other_prev: Lsn,
    pub child: PageNo,
    pub pages: u32,
}

/// No fields.
pub(crate) const NONE: Fields = Fields {
    prev: 0,
    page: 0,
    page_prev: 0,
    other_prev: 0,
    child: 0,
    pages: 0,
};

/// What stands in these fields of a record.
pub(crate) fn fields_of(rec: &Record) -> Fields
    ensures { result ≡ fields.fields_of rec.now }
{
    match rec {
        Record::Write(w) => Fields {
            prev: w.prev,
            page: w.page,
            page_prev: w.page_prev,
            ..NONE
        },
        Record::Apply(a) => Fields {
            prev: a.prev,
            page: a.page,
            page_prev: a.page_prev,
            ..NONE
        },
        Record::Undo(u) => Fields {
            prev: u.prev,
            page: u.page,
            page_prev: u.page_prev,
            ..NONE
        },
        Record::End(e) => Fields {
            prev: e.prev,
            ..NONE
        },
        Record::Split(s) => Fields {
            page_prev: s.page_prev,
            child: s.child,
            ..NONE
        },
        Record::Adopt(a) => Fields {
            page_prev: a.parent_prev,
            other_prev: a.fosterer_prev,
            ..NONE
        },
        Record::Grow(g) => Fields {
            page_prev: g.page_prev,
            child: g.child,
            ..NONE
        },
        Record::Purge(p) => Fields {
            page_prev: p.page_prev,
            ..NONE
        },
        Record::Lost(l) => Fields {
            pages: l.pages,
            ..NONE
        },
        _ => NONE,
    }
}

/// Puts these into the fields of a record.
pub(crate) fn set_fields(rec: &mut Record, fields: &Fields)
    ensures { rec.new ≡ with_fields fields.now rec.old }
{
    match rec {
        Record::Write(w) => {
            w.prev = fields.prev;
            w.page = fields.page;
            w.page_prev = fields.page_prev;
        }
        Record::Apply(a) => {
            a.prev = fields.prev;
            a.page = fields.page;
            a.page_prev = fields.page_prev;
        }
        Record::Undo(u) => {
            u.prev = fields.prev;
            u.page = fields.page;
            u.page_prev = fields.page_prev;
        }
        Record::End(e) => e.prev = fields.prev,
        Record::Split(s) => {
            s.page_prev = fields.page_prev;
            s.child = fields.child;
        }
        Record::Adopt(a) => {
            a.parent_prev = fields.page_prev;
            a.fosterer_prev = fields.other_prev;
        }
        Record::Grow(g) => {
            g.page_prev = fields.page_prev;
            g.child = fields.child;
        }
        Record::Purge(p) => p.page_prev = fields.page_prev,
        Record::Lost(l) => l.pages = fields.pages,
        _ => {}
    }
}
