// What multiplexes and journals have by the types of their values.
ghost use Rattle.std.specs.Prelude.{◌≤◌, ℕ, IfSome};
ghost use Rattle.std.specs.List.{AllByRecursion};
ghost use Rattle.guide_model.specs.Decoding.{IsKept};
ghost use Rattle.guide_model.specs.Descriptors.{IsOfBytes};
ghost use Rattle.mux_model.specs.declared.mux.MuxService.{MuxService as OwnService};
ghost use Rattle.mux_model.specs.declared.mux.RemoteService.{RemoteService as Remote};
ghost use Rattle.mux_model.specs.declared.mux.Other.{Other as OtherStream};
ghost use Rattle.mux_model.specs.Fed.{IsNamed, fed_services};
ghost use Rattle.mux_model.specs.Sound.{HasStreamIds, IsSound, IsSoundWithIds};
ghost use Rattle.journal_model.specs.declared.step.Entry.{Entry as AnEntry};
ghost use Rattle.journal_model.specs.Edits.{HasGenreNumbers, IsTypedEdit, IsTypedItem};
ghost use Rattle.journal_model.specs.Steps.{IsTypedStep};
ghost use Rattle.journal_air.specs.Laws.{HasTypedEdits};
ghost use Rattle.journal_air.specs.JournalScreenShown.{IsAsRead};

use desk_core::Desk;
use guide_model::{Genre, RawDesc, Txt};
use journal_model::{Edit, Entry, Item, RawRating, Step};
use mux_model::{Mux, MuxService, Other, RemoteService};

fn is_byte(number: u8)
    ensures { number ≤ 255 }
{}

fn is_word(number: u16)
    ensures { number ≤ 65535 }
{}

fn is_kept(text: &Txt)
    ensures { IsKept text.now }
{
    let _text = text.as_str();
}

fn has_ids(other: &Other)
    ensures { HasStreamIds other.now }
{
    is_word(other.stream);
    is_word(other.original);
}

fn have_ids(others: &[Other])
    ensures { AllByRecursion HasStreamIds others.now }
{
    for other in others {
        has_ids(other);
    }
}

/// A sound multiplex has ids of 16 bits, as each value of its type.
pub fn mux_has_ids(mux: &Mux)
    requires { IsSound mux.now }
    ensures { IsSoundWithIds mux.now }
{
    is_word(mux.network);
    is_word(mux.stream);
    is_word(mux.original);
    have_ids(mux.others.as_slice());
}

fn own_named(services: &[MuxService])
    ensures { AllByRecursion (λ (s : OwnService). IsKept s.provider × IsKept s.name) services.now }
{
    for service in services {
        is_kept(&service.provider);
        is_kept(&service.name);
    }
}

fn remote_named(services: &[RemoteService])
    ensures { AllByRecursion (λ (s : Remote). IsKept s.provider × IsKept s.name) services.now }
{
    for service in services {
        is_kept(&service.provider);
        is_kept(&service.name);
    }
}

fn other_named(other: &Other)
    ensures { AllByRecursion (λ (s : Remote). IsKept s.provider × IsKept s.name) other.now.services }
{
    remote_named(other.services.as_slice());
}

fn others_named(others: &[Other])
    ensures { AllByRecursion (λ (o : OtherStream).
        AllByRecursion (λ (s : Remote). IsKept s.provider × IsKept s.name) o.services) others.now }
{
    for other in others {
        other_named(other);
    }
}

/// The names of a multiplex may be kept, as all texts.
pub fn names_are_kept(mux: &Mux)
    ensures network { IsKept mux.now.network_name }
    ensures services { AllByRecursion IsNamed (fed_services mux.now) }
{
    is_kept(&mux.network_name);
    own_named(mux.services.as_slice());
    others_named(mux.others.as_slice());
}

fn genres_are_typed(genres: &[Genre])
    ensures { AllByRecursion HasGenreNumbers genres.now }
{
    for genre in genres {
        is_byte(genre.level1);
        is_byte(genre.level2);
        is_byte(genre.user);
    }
}

fn are_bytes(numbers: &[u8])
    ensures { AllByRecursion (λ (b : ℕ). b ≤ 255) numbers.now }
{
    for number in numbers {
        is_byte(*number);
    }
}

fn descriptor_is_typed(desc: &RawDesc)
    ensures { IsOfBytes desc.now }
{
    is_byte(desc.tag);
    are_bytes(desc.body.as_slice());
}

fn descriptors_are_typed(descs: &[RawDesc])
    ensures { AllByRecursion IsOfBytes descs.now }
{
    for desc in descs {
        descriptor_is_typed(desc);
    }
}

fn rating_is_typed(rating: &Option<RawRating>)
    ensures value { IfSome rating.now (λ rating. rating.value ≤ 255) }
    ensures country { IfSome rating.now (λ rating. IsKept rating.country) }
{
    if let Some(rating) = rating {
        is_byte(rating.value);
        is_kept(&rating.country);
    }
}

fn item_is_typed(item: &Item)
    ensures { IsTypedItem item.now }
{
    is_word(item.id);
    rating_is_typed(&item.rating);
    genres_are_typed(item.genres.as_slice());
    descriptors_are_typed(item.descriptors.as_slice());
    is_kept(&item.language);
    is_kept(&item.name);
    is_kept(&item.short);
    is_kept(&item.extended);
}

fn items_are_typed(items: &[Item])
    ensures { AllByRecursion IsTypedItem items.now }
{
    for item in items {
        item_is_typed(item);
    }
}

fn edit_is_typed(edit: &Edit)
    ensures { IsTypedEdit edit.now }
{
    match edit {
        Edit::Put(service, item) => {
            is_word(*service);
            item_is_typed(item);
        }
        Edit::Withdraw(service, event) => {
            is_word(*service);
            is_word(*event);
        }
        Edit::Clear(service) => is_word(*service),
        Edit::Name(service, provider, name) => {
            is_word(*service);
            is_kept(provider);
            is_kept(name);
        }
        Edit::Day(service, _, items) => {
            is_word(*service);
            items_are_typed(items.as_slice());
        }
    }
}

fn step_is_typed(step: &Step)
    ensures { IsTypedStep step.now }
{
    if let Step::Edit(feed, edit) = step {
        is_byte(*feed);
        edit_is_typed(edit);
    }
}

fn steps_are_typed(entries: &[Entry])
    ensures { AllByRecursion (λ (entry : AnEntry). IsTypedStep entry.step) entries.now }
{
    for entry in entries {
        step_is_typed(&entry.step);
    }
}

/// The accepted edits of entries have numbers as wide as their fields, and texts that may be kept,
/// as each value of their type.
pub fn edits_are_typed(entries: &[Entry])
    ensures { HasTypedEdits entries.now }
{
    steps_are_typed(entries);
}

/// The multiplex and the journal of a desk are such as lines give them. It takes no memory, but
/// goes through all of both: it is called for what it says.
pub fn desk_is_as_read(desk: &Desk)
    ensures { IsAsRead desk.now.mux desk.now.entries }
{
    let mux = desk.mux();
    mux_has_ids(mux);
    names_are_kept(mux);
    edits_are_typed(desk.entries());
}
