//! The image of a page.
ghost use Rattle.std.specs.Prelude.{◌≡◌, IfOk, IfSome};
ghost use Rattle.wal_record.specs.State.{KeepsState};

use page_rows::copied_state;
use std::alloc::Global;
use std::marker::Model;
use store_model::Memory;
use wal_record::PageState;

/// A state that keeps the rules of a state. Contracts see it as the state.
#[derive(Drop)]
pub struct Image {
    state: PageState,
}

impl Model for Image {
    ghost use Rattle.wal_record.specs.State.{KeepsState};
    ghost use Rattle.wal_record.specs.declared.page.PageState.{PageState};

    ghost Value = { PageState };

    ghost view = { λ i. i.state };

    ghost invariant = { λ i. KeepsState i.state };
}

impl Image {
    /// The image with this state.
    pub fn of(state: PageState) -> Image
        requires { KeepsState state }
        ensures { result ≡ state }
    {
        Image { state }
    }

    /// The state.
    pub fn state(&self) -> &PageState
        ensures same { result.now ≡ self.now }
        ensures keeps { KeepsState self.now }
    {
        &self.state
    }

    /// The state.
    pub fn into_state(self) -> PageState
        ensures same { result ≡ self }
        ensures keeps { KeepsState result }
    {
        self.state
    }

    /// The same image again.
    pub fn copied(&self, alloc: Global) -> Result<Image, Memory>
        ensures { IfOk result (λ i. i ≡ self.now) }
    {
        let state = copied_state(alloc, &self.state)?;
        Ok(Image { state })
    }
}
