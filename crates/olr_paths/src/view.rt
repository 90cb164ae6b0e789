//! A path of a list under changes.
ghost use Rattle.std.specs.Prelude.{◌≡◌, ◌∷◌, [], false};
ghost use Rattle.olr_paths.specs.Items.{item_of};
ghost use Rattle.olr_paths.specs.Overlaid.{changes_in, change_at, drops, under_change};
ghost use Rattle.olr_paths.specs.Views.{shown_item};

use crate::path_list::NamedPath;
use crate::published::Published;
use indexmap::IndexMap;
use olr_answers::Path;
use std::rc::Rc;

/// A path of a list under changes, and what is published of it, if it was encoded and is not replaced.
#[derive(Clone, Copy)]
pub struct PathView<'a> {
    /// Its name.
    pub name: &'a str,
    /// The path.
    pub path: &'a Rc<Path>,
    /// What is published of it.
    pub published: Option<&'a Published>,
}

/// A path of the list itself.
pub(crate) fn show<'a>(name: &'a str, named: &'a NamedPath) -> PathView<'a>
    ensures { shown_item result ≡ item_of name.now named.now }
{
    PathView {
        name,
        path: &named.path,
        published: named.published(),
    }
}

/// A path of a list under changes that don't remove it.
#[tactic(auto, using(crate::proofs::Overlaying::change_found))]
pub(crate) fn show_under<'a>(
    changes: &'a IndexMap<String, Option<Rc<Path>>>,
    name: &'a str,
    named: &'a NamedPath,
) -> PathView<'a>
    requires { drops (change_at (changes_in changes.now.entries) name.now) ≡ false }
    ensures { under_change (change_at (changes_in changes.now.entries) name.now) (item_of name.now named.now)
        ≡ shown_item result ∷ [] }
{
    let Some(change) = changes.get(name) else {
        return show(name, named);
    };
    PathView {
        name,
        path: change.as_ref().unwrap(),
        published: None,
    }
}
