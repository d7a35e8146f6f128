//! The parts of what always holds.
use crate::{alone, counts, domains, formed, found, frames, fresh, valid};
use plain_words::State;

/// A part of what always holds. Those with `Found` say that what each vCPU found stays true.
#[derive(Clone, Copy)]
pub enum Part {
    /// Each word is a spelling.
    Spelled,
    References,
    Types,
    /// Each typed reference has the type of its frame.
    Kinds,
    Pages,
    /// No recorded entry is Bad.
    Allowed,
    /// What a recorded entry types is live, but for the last.
    Live,
    /// Live descriptor pages have fixed words.
    Fixed,
    /// Words of vCPUs name live frames.
    Contexts,
    /// Entries and words of vCPUs lead to permitted domains.
    Permitted,
    /// Each dying frame is ending or claimed in one hand, once, and no other is.
    Dying,
    /// Each frame in work or closing is in one hand, once, and no other is.
    Works,
    Locks,
    /// Nothing is recorded of a marked frame, and a closing one keeps an untyped reference.
    Bare,
    /// No stamp is later than the clock.
    Stamped,
    /// A vCPU that does not run has nothing, and a cold one no translations.
    Idle,
    FoundClock,
    FoundFlushed,
    FoundStopped,
    FoundLife,
    /// Clock values since the last flush.
    FoundSinceAck,
    /// A vCPU that was found off has been flushed since.
    FoundOff,
    /// Or it is cold and has found the clock since.
    FoundCold,
    FoundOwners,
    FoundLives,
    FoundPartials,
    FoundWorks,
    FoundLocks,
    FoundEndings,
    FoundClaims,
    FoundPrivileges,
    FoundOwn,
    /// Each hand fits itself.
    Formed,
    /// What translations lead to is permitted and bears them.
    Fresh,
    /// All uses of a frame but to read it are one.
    OneUse,
    Dead,
    /// What the vCPU that destroys a domain found of it stays so.
    Destroyed,
    /// The bits of free and raised frames are set, and no others.
    Map,
}

/// All parts, by name.
pub static PARTS: [(&str, Part); 38] = [
    ("Spelled", Part::Spelled),
    ("References", Part::References),
    ("Types", Part::Types),
    ("Kinds", Part::Kinds),
    ("Pages", Part::Pages),
    ("Allowed", Part::Allowed),
    ("Live", Part::Live),
    ("Fixed", Part::Fixed),
    ("Contexts", Part::Contexts),
    ("Permitted", Part::Permitted),
    ("Dying", Part::Dying),
    ("Works", Part::Works),
    ("Locks", Part::Locks),
    ("Bare", Part::Bare),
    ("Stamped", Part::Stamped),
    ("Idle", Part::Idle),
    ("FoundClock", Part::FoundClock),
    ("FoundFlushed", Part::FoundFlushed),
    ("FoundStopped", Part::FoundStopped),
    ("FoundLife", Part::FoundLife),
    ("FoundSinceAck", Part::FoundSinceAck),
    ("FoundOff", Part::FoundOff),
    ("FoundCold", Part::FoundCold),
    ("FoundOwners", Part::FoundOwners),
    ("FoundLives", Part::FoundLives),
    ("FoundPartials", Part::FoundPartials),
    ("FoundWorks", Part::FoundWorks),
    ("FoundLocks", Part::FoundLocks),
    ("FoundEndings", Part::FoundEndings),
    ("FoundClaims", Part::FoundClaims),
    ("FoundPrivileges", Part::FoundPrivileges),
    ("FoundOwn", Part::FoundOwn),
    ("Formed", Part::Formed),
    ("Fresh", Part::Fresh),
    ("OneUse", Part::OneUse),
    ("Dead", Part::Dead),
    ("Destroyed", Part::Destroyed),
    ("Map", Part::Map),
];

/// Whether the part holds of the words and hands.
pub fn keeps(state: &State, part: Part) -> bool {
    match part {
        Part::Spelled => frames::is_spelled(state),
        Part::References => counts::references_agree(state),
        Part::Types => counts::types_agree(state),
        Part::Kinds => counts::kinds_agree(state),
        Part::Pages => counts::pages_agree(state),
        Part::Allowed => valid::entries_allowed(state),
        Part::Live => valid::entries_live(state),
        Part::Fixed => valid::descriptors_fixed(state),
        Part::Contexts => valid::contexts_live(state),
        Part::Permitted => valid::stays_permitted(state),
        Part::Dying | Part::Works | Part::Locks => alone::holds_alone(state, part),
        Part::Bare => alone::works_bare(state),
        Part::Stamped => frames::is_stamped(state),
        Part::Idle => frames::rests(state),
        Part::Formed => formed::is_formed(state),
        Part::Fresh => fresh::is_fresh(state),
        Part::OneUse => fresh::has_one_use(state),
        Part::Dead => domains::dead_rest(state),
        Part::Destroyed => domains::dying_rest(state),
        Part::Map => frames::map_tells(state),
        _ => found::stays(state, part),
    }
}
