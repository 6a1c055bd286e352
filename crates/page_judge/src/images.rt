//! All images of pages.
ghost use Rattle.std.specs.Prelude.{◌≡◌, ◌↔◌, ◌∷◌, ◌++◌, [], ℕ, List, Some, IsTrue, IfOk, IfSome, OnOk, OnErr, is_some};
ghost use Rattle.std.specs.Option.{option_copied, option_map};
ghost use Rattle.std.specs.Ordering.{nat_cmp};
ghost use Rattle.std.specs.BTreeMap.{get};
ghost use Rattle.wal_record.specs.Images.{OnPage, image};
ghost use Rattle.wal_record.specs.Rules.{HasSpelling};
ghost use Rattle.wal_record.specs.State.{KeepsState};
ghost use Rattle.wal_record.specs.declared.record.Record.{Record};
ghost use Rattle.page_judge.specs.Images.{AreImagesOf, HasPlace, IsAfter, IsChange, IsChanged, IsMadeBy, IsNamed, both_of, changed_to, state_in};

use crate::changed::{Changed, Named, PageImage};
use crate::image::Image;
use crate::names::{first_page, second_page};
use operators::Operators;
use page_rows::redo;
use std::alloc::Global;
use std::collections::BTreeMap;
use store_model::{Memory, PageNo};
use wal_record::{PageState, Record};

/// The images of all pages of a log.
#[derive(Drop)]
pub struct PageImages {
    pub(crate) alloc: Global,
    /// A page that has no image may have a place, too.
    pub(crate) places: BTreeMap<PageNo, Option<Image>>,
}

/// The image of a page, if it has one.
pub(crate) fn image_in(places: &BTreeMap<PageNo, Option<Image>>, page: PageNo) -> Option<&Image>
    ensures { option_copied result ≡ state_in places.now page }
{
    match places.get(&page) {
        Some(place) => place.as_ref(),
        None => None,
    }
}

/// The state of a page again, if it has one.
fn copied_in(
    alloc: Global,
    places: &BTreeMap<PageNo, Option<Image>>,
    page: PageNo,
) -> Result<Option<Image>, Memory>
    ensures { IfOk result (λ o. o ≡ state_in places.now page) }
{
    match image_in(places, page) {
        Some(image) => Ok(Some(image.copied(alloc)?)),
        None => Ok(None),
    }
}

/// Its state.
fn into_state(image: Option<Image>) -> Option<PageState>
    ensures same { result ≡ image }
    ensures keeps { IfSome result KeepsState }
{
    match image {
        Some(image) => Some(image.into_state()),
        None => None,
    }
}

/// What a record makes of an image of a page, where it is applicable to it.
fn image_after(
    alloc: Global,
    image: Option<Image>,
    page: PageNo,
    entered: &Record,
    operators: &Operators,
) -> Result<Option<Image>, Memory>
    requires spelled { HasSpelling entered.now }
    ensures { IfOk result (IsAfter entered.now page image) }
{
    let mut state = into_state(image);
    if !redo(alloc, &mut state, page, entered, operators)? {
        return Ok(None);
    }
    match state {
        Some(state) => Ok(Some(Image::of(state))),
        None => Ok(None),
    }
}

/// Makes a place for what a page becomes.
fn make_place(
    places: &mut BTreeMap<PageNo, Option<Image>>,
    change: &Option<PageImage>,
) -> Result<(), Memory>
    ensures same { (p : ℕ) → state_in places.new p ≡ state_in places.old p }
    ensures there { OnOk result (HasPlace places.new change.now) }
    ensures kept { (q : ℕ) → IsTrue (is_some (get nat_cmp places.old q)) → IsTrue (is_some (get nat_cmp places.new q)) }
{
    let Some(change) = change else {
        return Ok(());
    };
    if places.contains_key(&change.page) {
        return Ok(());
    }
    places.insert(change.page, None)?;
    Ok(())
}

/// The page, which has a place, becomes this.
fn put(places: &mut BTreeMap<PageNo, Option<Image>>, change: Option<PageImage>)
    requires { HasPlace places.old change }
    ensures same { (p : ℕ) → state_in places.new p ≡ changed_to change p (state_in places.old p) }
    ensures kept { (q : ℕ) → IsTrue (is_some (get nat_cmp places.old q)) → IsTrue (is_some (get nat_cmp places.new q)) }
{
    let Some(PageImage { page, image }) = change else {
        return;
    };
    match places.insert(page, Some(image)) {
        Ok(_) => {}
        Err(_) => unreachable!(),
    }
}

/// Both, if they are there.
fn both(first: Option<Named>, second: Option<Named>) -> Option<Changed>
    ensures { result ≡ both_of first second }
{
    match first {
        Some(first) => with_second(first, second),
        None => None,
    }
}

fn with_second(first: Named, second: Option<Named>) -> Option<Changed>
    ensures { result ≡ both_of (Some first) second }
{
    match second {
        Some(second) => Some(Changed {
            first: first.made,
            second: second.made,
        }),
        None => None,
    }
}

impl PageImages {
    /// Those of an empty log.
    pub fn new(alloc: Global) -> PageImages
        ensures { AreImagesOf [] result }
    {
        PageImages {
            alloc,
            places: BTreeMap::new(alloc),
        }
    }

    /// What a record makes of a page that it names, where it is applicable to it.
    fn change_of(
        &self,
        page: Option<PageNo>,
        entered: &Record,
        operators: &Operators,
    ) -> Result<Option<Named>, Memory>
        requires spelled { HasSpelling entered.now }
        requires named { IsNamed entered.now page }
        ensures { IfOk result (IsChange (state_in self.now.places) entered.now page) }
    {
        let Some(page) = page else {
            return Ok(Some(Named { made: None }));
        };
        let before = copied_in(self.alloc, &self.places, page)?;
        match image_after(self.alloc, before, page, entered, operators)? {
            Some(image) => Ok(Some(Named {
                made: Some(PageImage { page, image }),
            })),
            None => Ok(None),
        }
    }

    /// What a record makes of the pages that it names, where it is applicable to all of them.
    pub fn changed(
        &self,
        entered: &Record,
        operators: &Operators,
    ) -> Result<Option<Changed>, Memory>
        requires spelled { HasSpelling entered.now }
        ensures { (log : List Record) → AreImagesOf log self.now → IfOk result (IsChanged log entered.now) }
    {
        let first = self.change_of(first_page(entered), entered, operators)?;
        let second = self.change_of(second_page(entered), entered, operators)?;
        Ok(both(first, second))
    }

    /// Makes places for what a record makes of pages. The images stay as they are.
    pub fn prepare(&mut self, changed: &Changed) -> Result<(), Memory>
        ensures same { (log : List Record) → AreImagesOf log self.old → AreImagesOf log self.new }
        ensures ready { OnOk result (HasPlace self.new.places changed.now.first × HasPlace self.new.places changed.now.second) }
    {
        make_place(&mut self.places, &changed.first)?;
        make_place(&mut self.places, &changed.second)
    }

    /// Takes a record by what it makes of the pages that it names. It takes no memory.
    pub fn note(&mut self, changed: Changed)
        requires first { HasPlace self.old.places changed.first }
        requires second { HasPlace self.old.places changed.second }
        ensures { (log : List Record) → (r : Record) → AreImagesOf log self.old → IsMadeBy log r changed → AreImagesOf (log ++ r ∷ []) self.new }
    {
        let Changed { first, second } = changed;
        put(&mut self.places, first);
        put(&mut self.places, second);
    }
}
