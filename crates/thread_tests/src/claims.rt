//! Two vCPUs that claim blocks of free frames at once: the whole of one claim stands between two steps of the other. All is in one thread.
ghost use Rattle.std.specs.Prelude.{◌≡◌, ◌<◌, ◌≤◌, IsTrue, length, true};
ghost use Rattle.xp_words.specs.Places.{is_place, sizes_of};
ghost use Rattle.xp_board.specs.Readings.{domain_of};
ghost use Rattle.step_maker.specs.Holds.{Rests};
ghost use Rattle.thread_board.specs.Values.{opened_pass};

use crate::tests::opened;
use crate::two::two_passes;
use flush_words::look_run;
use frame_claims::claim;
use std::process::Abort;
use step_maker::look;
use thread_board::{Pass, SharedBoard, SharedPort};
use xp_board::{Item, Port, Step};
use xp_words::{Layout, Pause, Place, Stop};

// A vCPU that runs and has nothing in hand, its domain, and the order of the blocks that it claims.
#[derive(Drop)]
struct Claimer<P: Port> {
    port: P,
    domain: u16,
    order: u8,
    ghost rests: { Rests (P.value port) },
    ghost own: { domain ≡ domain_of (P.value port).post.machine (P.value port).post.vcpu },
    ghost real: { domain < length (P.value port).post.machine.page_limit },
    ghost few: { order ≤ 9 },
}

impl<P: Port> Claimer<P> {
    fn claim(&mut self) -> Result<u32, Stop> {
        claim(&mut self.port, self.domain, self.order, None)
    }
}

// The vCPU of a pass.
fn at_work<'a>(
    rt: &impl Abort,
    board: &'a SharedBoard,
    pass: &'a mut Pass,
    order: u8,
) -> Claimer<SharedPort<'a>>
    requires vcpu { pass.old.vcpu < (sizes_of board.now.machine).vcpus }
    requires opened { pass.old ≡ opened_pass board.now.table pass.old.vcpu }
{
    let mut port = pass.port(board);
    assert!(rt; look_run(&mut port) == 0);
    assert!(rt; order <= 9);
    let domain = port.layout().vcpu_domain.as_slice()[port.vcpu() as usize];
    Claimer {
        port,
        domain,
        order,
    }
}

// A port before whose step number `at` another vCPU makes its claim. `made` counts the steps, and `claimed` is what that claim answered.
#[derive(Drop)]
struct Racing<P, Q: Port> {
    port: P,
    other: Claimer<Q>,
    at: u32,
    made: u32,
    claimed: Option<Result<u32, Stop>>,
}

impl<P, Q: Port> Racing<P, Q> {
    fn let_the_other_claim(&mut self)
        ensures { self.new.port ≡ self.old.port }
    {
        if self.made == self.at {
            self.claimed = Some(self.other.claim());
        }
        self.made = self.made.saturating_add(1);
    }
}

impl<P: Port, Q: Port> Port for Racing<P, Q> {
    ghost value = { λ r. P.value r.port };

    fn layout(&self) -> &Layout {
        self.port.layout()
    }

    fn vcpu(&self) -> u32 {
        self.port.vcpu()
    }

    fn cached(&self, user: bool, page: u64) -> Option<Item> {
        self.port.cached(user, page)
    }

    fn step(&mut self, step: Step) -> u64 {
        self.let_the_other_claim();
        self.port.step(step)
    }
}

// The words that say who has which frame.
#[derive(PartialEq, Eq, Drop)]
struct Words {
    pages: (u64, u64),
    map: u64,
    refs: Vec<u64>,
}

// Whether it is one of those words.
#[tactic(auto, unfolding(xp_words::specs::Places::is_place))]
fn is_there(layout: &Layout, place: Place) -> bool
    ensures { result ≡ true → IsTrue (is_place (sizes_of layout.now) place) }
{
    match place {
        Place::Pages { domain } => u32::from(domain) < layout.domains(),
        Place::Refs { frame } => frame < layout.frames,
        Place::Map { word } => word < layout.map_words(),
        _ => false,
    }
}

// Its number in the list of all words.
fn number_of(rt: &impl Abort, layout: &Layout, place: Place) -> u32 {
    assert!(rt; is_there(layout, place));
    layout.place(place)
}

fn word_at<P: Port>(rt: &impl Abort, port: &mut P, place: Place) -> u64 {
    assert!(rt; is_there(port.layout(), place));
    look(port, place)
}

fn words_at<P: Port>(rt: &(impl Abort + AllocGlobal), port: &mut P) -> Words {
    let pages = (
        word_at(rt, port, Place::Pages { domain: 0 }),
        word_at(rt, port, Place::Pages { domain: 1 }),
    );
    let map = word_at(rt, port, Place::Map { word: 0 });
    let mut refs = Vec::new(rt.alloc());
    for frame in 0..port.layout().frames {
        let word = word_at(rt, port, Place::Refs { frame });
        refs.push(word).expect(rt, "memory");
    }
    Words { pages, map, refs }
}

// A machine of two vCPUs: the first claims two frames, the second 2^order. `lost` says before which steps of the first's claim the second's makes it
// lose; before each other step there is room for both, and `pages` are those of the two domains then.
#[derive(Clone, Copy)]
struct Race {
    shows: &'static str,
    opening: &'static str,
    order: u8,
    lost: &'static [Lost],
    pages: (u64, u64),
}

// Before each of these steps, and the word at which the first's claim is lost then.
#[derive(Clone, Copy)]
struct Lost {
    from: u32,
    to: u32,
    at: Place,
}

// Frames 1, 2, 3 and those from 5 on are free.
const TWO_DOMAINS: &str =
    "xen-pv-trace 1\nframes 12\nlimit 8\nclock 5\ndomain 8\ndomain 4\nvcpu 0\nvcpu 1\nown 0 0 1\nown 1 4 1\nend\n";

const ONE_DOMAIN: &str =
    "xen-pv-trace 1\nframes 12\nlimit 8\nclock 5\ndomain 8\ndomain 4\nvcpu 0\nvcpu 0\nown 0 0 1\nown 1 4 1\nend\n";

// The same without frame 1.
const FROM_TWO: &str =
    "xen-pv-trace 1\nframes 12\nlimit 8\nclock 5\ndomain 8\ndomain 4\nvcpu 0\nvcpu 1\nown 0 0 2\nown 1 4 1\nend\n";

const RACES: [Race; 3] = [
    Race {
        shows: "Each claims two frames for its own domain. The last one is taken first, and nothing is taken before it.",
        opening: TWO_DOMAINS,
        order: 1,
        lost: &[Lost {
            from: 5,
            to: 8,
            at: Place::Refs { frame: 3 },
        }],
        pages: (3, 3),
    },
    Race {
        shows: "The second claims one frame, the first of the block. The last one is taken then, and given back.",
        opening: FROM_TWO,
        order: 0,
        lost: &[Lost {
            from: 4,
            to: 9,
            at: Place::Refs { frame: 2 },
        }],
        pages: (4, 2),
    },
    Race {
        shows: "Both claim for one domain, so the word of its pages changes, too.",
        opening: ONE_DOMAIN,
        order: 1,
        lost: &[
            Lost {
                from: 1,
                to: 1,
                at: Place::Pages { domain: 0 },
            },
            Lost {
                from: 5,
                to: 8,
                at: Place::Refs { frame: 3 },
            },
        ],
        pages: (5, 1),
    },
];

// What both claims answered, how many steps the first one made, the words that they left, and the word at which the first is to be lost, by its number.
#[derive(Drop)]
struct Outcome {
    first: Result<u32, Stop>,
    second: Option<Result<u32, Stop>>,
    steps: u32,
    words: Words,
    lost: Option<u32>,
}

// The first's claim, before whose step number `at` the second's stands.
fn race_at(rt: &(impl Abort + AllocGlobal), race: &Race, at: u32) -> Outcome {
    let (board, passes) = opened(rt.alloc(), race.opening).expect(rt, "a board");
    assert!(rt; board.layout().vcpus() == 2);
    let (mut one, mut two) = two_passes(&board, passes).expect(rt, "two passes");
    let Claimer {
        port,
        domain,
        order: _,
    } = at_work(rt, &board, &mut one, 1);
    let mut port = Racing {
        port,
        other: at_work(rt, &board, &mut two, race.order),
        at,
        made: 0,
        claimed: None,
    };
    let first = claim(&mut port, domain, 1, None);
    Outcome {
        first,
        second: port.claimed,
        steps: port.made,
        words: words_at(rt, &mut port.port),
        lost: lost_at(race, at).map(|place| number_of(rt, board.layout(), place)),
    }
}

// The words that the second's claim leaves where the first makes none.
fn alone(rt: &(impl Abort + AllocGlobal), race: &Race) -> Words {
    let (board, passes) = opened(rt.alloc(), race.opening).expect(rt, "a board");
    assert!(rt; board.layout().vcpus() == 2);
    let (_, mut two) = two_passes(&board, passes).expect(rt, "two passes");
    let mut second = at_work(rt, &board, &mut two, race.order);
    assert!(rt; second.claim() == Ok(2));
    words_at(rt, &mut second.port)
}

// The word at which the first's claim is to be lost where the second's stands before that step.
fn lost_at(race: &Race, step: u32) -> Option<Place> {
    let lost = race
        .lost
        .iter()
        .find(|lost| lost.from <= step && step <= lost.to)?;
    Some(lost.at)
}

// Both have their blocks, or the first's claim is lost where it is to be, and nothing is left of it.
fn fits(race: &Race, left: &Words, outcome: &Outcome) -> bool {
    match (outcome.first, outcome.second, outcome.lost) {
        (Ok(first), Some(Ok(second)), None) => {
            first / 2 != second / 2 && outcome.words.pages == race.pages
        }
        (Err(Stop::Paused(Pause::Lost { place, .. })), Some(Ok(2)), Some(word)) => {
            place == word && outcome.words == *left
        }
        _ => false,
    }
}

fn race_fits(rt: &(impl Abort + AllocGlobal), race: &Race, left: &Words, step: u32) {
    let outcome = race_at(rt, race, step);
    let fits = fits(race, left, &outcome);
    assert!(rt; fits, "{} Step {step}.", race.shows);
}

#[test]
fn a_race_at_any_step_of_a_claim_gives_all_back(rt: HostRuntime) {
    for race in RACES.iter() {
        let left = alone(&rt, race);
        let calm = race_at(&rt, race, u32::MAX);
        assert!(rt; calm.first == Ok(2) && calm.second.is_none());
        for step in 0..calm.steps {
            race_fits(&rt, race, &left, step);
        }
    }
}
