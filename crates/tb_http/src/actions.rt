//! The actions that the methods of a target ask for.

ghost use Rattle.std.specs.Prelude.{◌≡◌, option_map, bytes_eq};
ghost use Rattle.tb_http.specs.Actions.{place_at, place_by, place_of};

use crate::forms::{
    attribute_of, base_of, context_of, event_of, name_of, number_of, segment, strategy_of,
};
use crate::routes::{Route, Routes};
use tb_core::Event;
use tb_match::Strategy;
use tb_syntax::Attr;

/// What a request asks of the desk.
#[derive(Clone, Copy, Debug)]
pub enum Action<'b> {
    /// The body becomes a batch of this name.
    Import { name: &'b str },
    /// An event in the life of the batch.
    Step { name: &'b str, event: Event },
    /// The batch, as CoNLL-U.
    Export { name: &'b str },
    /// The body becomes the revision after `base` of the sentence.
    Correct { no: u64, base: u64 },
    /// The sentence's current revision.
    Sentence { no: u64 },
    /// One of the sentence's revisions.
    Revision { no: u64, rev: u64 },
    /// The sentence is withdrawn by itself, until it is restored.
    Pull { no: u64 },
    /// The sentence is in the state of its batch again.
    Restore { no: u64 },
    /// The released sentences, as CoNLL-U.
    Released,
    /// Sentences and words in each state, as CSV.
    Totals,
    /// All moves, as CSV.
    Moves,
    /// The keyword lines of the query in the body.
    Search { strategy: Strategy, context: u8 },
    /// The frequency table of the query in the body, as CSV.
    Count { strategy: Strategy, attribute: Attr },
}

/// The methods of a target.
#[derive(Clone, Copy, Debug, PartialEq, Eq)]
pub enum Allow {
    Get,
    Post,
    GetAndPost,
}

/// What a target names: the action of each of its methods.
#[derive(Clone, Copy, Debug)]
pub enum Resource<'b> {
    Get(Action<'b>),
    Post(Action<'b>),
    GetAndPost { get: Action<'b>, post: Action<'b> },
}

/// Whether the bytes are this word.
fn is_word(bytes: &[u8], word: &[u8]) -> bool
    ensures { result ≡ bytes_eq bytes.now word.now }
{
    bytes == word
}

impl<'b> Resource<'b> {
    ghost use Rattle.std.specs.Prelude.{◌≡◌, option_map};
    ghost use Rattle.tb_http.specs.Actions.{place_by, act_by, act_of, allow_of, get_of, post_of};

    fn get(self) -> Option<Action<'b>>
        ensures { option_map act_by result ≡ get_of (place_by self.entry) }
    {
        match self {
            Resource::Get(get) | Resource::GetAndPost { get, .. } => Some(get),
            Resource::Post(_) => None,
        }
    }

    fn post(self) -> Option<Action<'b>>
        ensures { option_map act_by result ≡ post_of (place_by self.entry) }
    {
        match self {
            Resource::Post(post) | Resource::GetAndPost { post, .. } => Some(post),
            Resource::Get(_) => None,
        }
    }

    /// The action that a method asks for, if the target has this method.
    pub fn action(self, method: &[u8]) -> Option<Action<'b>>
        ensures { option_map act_by result ≡ act_of (place_by self.entry) method.now }
    {
        if is_word(method, b"GET") {
            self.get()
        } else if is_word(method, b"POST") {
            self.post()
        } else {
            None
        }
    }

    /// The methods of the target.
    pub fn allow(self) -> Allow
        ensures { result ≡ allow_of (place_by self.entry) }
    {
        match self {
            Resource::Get(_) => Allow::Get,
            Resource::Post(_) => Allow::Post,
            Resource::GetAndPost { .. } => Allow::GetAndPost,
        }
    }
}

/// What the values in some segments of a target name, where each of them has its form.
macro_rules! formed {
    ($target:ident: $($value:ident = $form:ident $place:literal),+ => $resource:expr) => {{
        $(let Some($value) = $form(segment($target, $place)) else {
            return None;
        };)+
        Some($resource)
    }};
}

/// What a target of this route names, where its segments have their forms.
fn resource_at(route: Route, target: &str) -> Option<Resource<'_>>
    ensures { option_map place_by result ≡ place_at route target.now }
{
    match route {
        Route::Batch => formed!(target: name = name_of 2 => Resource::GetAndPost {
            get: Action::Export { name },
            post: Action::Import { name },
        }),
        Route::Step => formed!(target: name = name_of 2, event = event_of 3
            => Resource::Post(Action::Step { name, event })),
        Route::Correction => formed!(target: no = number_of 2, base = base_of 4
            => Resource::Post(Action::Correct { no, base })),
        Route::Sentence =>
            formed!(target: no = number_of 2 => Resource::Get(Action::Sentence { no })),
        Route::Revision => formed!(target: no = number_of 2, rev = number_of 3
            => Resource::Get(Action::Revision { no, rev })),
        Route::Pull => formed!(target: no = number_of 2 => Resource::Post(Action::Pull { no })),
        Route::Restore =>
            formed!(target: no = number_of 2 => Resource::Post(Action::Restore { no })),
        Route::Released => Some(Resource::Get(Action::Released)),
        Route::Totals => Some(Resource::Get(Action::Totals)),
        Route::Moves => Some(Resource::Get(Action::Moves)),
        Route::Search => formed!(target: strategy = strategy_of 2, context = context_of 3
            => Resource::Post(Action::Search { strategy, context })),
        Route::Count => formed!(target: strategy = strategy_of 2, attribute = attribute_of 3
            => Resource::Post(Action::Count { strategy, attribute })),
    }
}

/// What a target names.
pub fn resource_of<'b>(routes: &Routes, target: &'b str) -> Option<Resource<'b>>
    ensures { option_map place_by result ≡ place_of target.now }
{
    let Some(route) = routes.route(target) else {
        return None;
    };
    resource_at(route, target)
}
