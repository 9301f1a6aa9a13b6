//! Looks up feeds and views by their names. There are at most 32, so they are searched one after another.

ghost use Rattle.std.specs.Prelude.{◌≡◌, map};
ghost use Rattle.session.specs.Names.{place_of};

use view_lang::{FeedConfig, View};

/// The index of the feed of that name; where there is none, how many feeds there are.
#[tactic(auto, using(crate::proofs::Named::naming))]
pub(crate) fn feed_place(feeds: &[FeedConfig], name: &str) -> usize
    ensures { result ≡ place_of name.now (map (λ f. f.name) feeds.now) }
{
    for (place, feed) in feeds.iter().enumerate() {
        if feed.name.as_str() == name {
            return place;
        }
    }
    feeds.len()
}

/// The index of the view of that name; where there is none, how many views there are.
#[tactic(auto, using(crate::proofs::Named::naming))]
pub(crate) fn view_place(views: &[View], name: &str) -> usize
    ensures { result ≡ place_of name.now (map (λ v. v.name) views.now) }
{
    for (place, view) in views.iter().enumerate() {
        if view.name.as_str() == name {
            return place;
        }
    }
    views.len()
}
