//! The last page of each flow, kept while a context of the flow is what the page left there.

ghost use Rattle.std.specs.Prelude.{◌≡◌, ℕ, Some, slice_get};
ghost use Rattle.sem_pages.specs.declared.page.Page as page;
ghost use Rattle.walk_session.specs.Pages as spec;

use sem_pages::Page;

/// What a flow keeps of the last page that was packed: its format, by its index, and the page itself, while the context is what that left.
#[derive(Drop)]
pub(crate) struct Last {
    pub(crate) format: Option<usize>,
    pub(crate) page: Option<Page>,
}

/// Takes the page of the flow at the place, if one is kept. The others stay.
#[inline(always)]
pub(crate) fn take_page(pages: &mut Vec<Option<Page>>, place: usize) -> Option<Page>
    ensures taken { spec.IsFrom pages.old.items place result }
    ensures left { spec.AreOthers pages.old.items place pages.new.items }
{
    if place >= pages.len() {
        return None;
    }
    pages[place].take()
}

/// Keeps the page, if there is one, as that of the flow at the place. Where memory runs out none is kept.
pub(crate) fn keep_page(pages: &mut Vec<Option<Page>>, place: usize, own: Option<Page>)
    ensures { spec.AreWith pages.old.items place own pages.new.items }
{
    fill_up(pages, place.saturating_add(1));
    if place < pages.len() {
        pages[place] = own;
    }
}

/// Makes so many places, as far as there is memory, with no page in the new ones.
#[tactic(auto, using(crate::proofs::PagesKept::pushed_same))]
fn fill_up(pages: &mut Vec<Option<Page>>, count: usize)
    ensures { spec.AreSame pages.old.items pages.new.items }
{
    for _i in pages.len()..count {
        if pages.push(None).is_err() {
            return;
        }
    }
}
