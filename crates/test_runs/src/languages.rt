//! The words of a machine with two places, worked by hand. Its states are listed from the end on: 0 ends. From 1 one says answer
//! 0 at place 1, from 2 answer 1 at place 0, and from 3 answer 0 at place 0. Two steps leave 4: with answer 0 at place 0 to 1,
//! and with answer 1 at place 1 to 2. So its words are 0 0 and 1 1, and 0 1 and 1 0 are none. Two steps leave 5, which come to
//! the same word in either order: with answer 0 at place 0 to 1, and with answer 0 at place 1 to 3.
use crate::expect::holds;
use ccan_language::{
    Graph, Letter, NoRoom, State, Step, letters_said, steps_lead_back, words_of_each,
};
use std::alloc::{AllocError, Global};
use std::process::Abort;

/// More nodes than any of these graphs needs.
const MOST: usize = 100;

/// A letter.
fn letter(place: u32, answer: u32) -> Letter {
    Letter { place, answer }
}

/// A step that says one letter.
fn step(alloc: Global, said: Letter, to: usize) -> Result<Step, AllocError> {
    Ok(Step {
        letters: Vec::from_slice(alloc, &[said])?,
        to,
    })
}

/// A state where no way ends, with these steps.
fn state(alloc: Global, steps: &[(Letter, usize)]) -> Result<State, AllocError> {
    let mut all = Vec::new(alloc);
    for (said, to) in steps {
        all.push(step(alloc, *said, *to)?)?;
    }
    Ok(State {
        ends: false,
        steps: all,
    })
}

/// The states, from the end on.
fn states(alloc: Global) -> Result<Vec<State>, AllocError> {
    let mut all = Vec::new(alloc);
    all.push(State {
        ends: true,
        steps: Vec::new(alloc),
    })?;
    all.push(state(alloc, &[(letter(1, 0), 0)])?)?;
    all.push(state(alloc, &[(letter(0, 1), 0)])?)?;
    all.push(state(alloc, &[(letter(0, 0), 0)])?)?;
    all.push(state(alloc, &[(letter(0, 0), 1), (letter(1, 1), 2)])?)?;
    all.push(state(alloc, &[(letter(0, 0), 1), (letter(1, 0), 3)])?)?;
    Ok(all)
}

/// Holds whether the word of these answers, in the order of the places, is one from the state of this index.
fn says(rt: &impl Abort, alloc: Global, index: usize, answers: (u32, u32), want: bool) {
    let Ok(all) = states(alloc) else {
        panic!(rt; "no memory")
    };
    let states = all.as_slice();
    if !steps_lead_back(states) {
        panic!(rt; "a step leads on")
    }
    let mut graph = Graph::new(alloc, MOST);
    let Ok(made) = words_of_each(&mut graph, alloc, states) else {
        panic!(rt; "no memory")
    };
    let Some(node) = made.as_slice().get(index) else {
        panic!(rt; "no such state")
    };
    if *node >= graph.len() {
        panic!(rt; "no such node")
    }
    let word = [letter(0, answers.0), letter(1, answers.1)];
    holds(rt, graph.contains(*node, &word) == want);
}

#[test]
fn says_just_the_words_of_its_ways(rt: HostRuntime) {
    says(&rt, rt.alloc(), 4, (0, 0), true);
    says(&rt, rt.alloc(), 4, (1, 1), true);
    says(&rt, rt.alloc(), 4, (0, 1), false);
    says(&rt, rt.alloc(), 4, (1, 0), false);
}

#[test]
fn puts_letters_in_the_order_of_their_places(rt: HostRuntime) {
    says(&rt, rt.alloc(), 5, (0, 0), true);
    says(&rt, rt.alloc(), 5, (1, 0), false);
}

/// A step to the state itself doesn't lead back.
#[test]
fn knows_a_step_that_leads_on(rt: HostRuntime) {
    let Ok(one) = state(rt.alloc(), &[(letter(0, 0), 0)]) else {
        panic!(&rt; "no memory")
    };
    holds(&rt, !steps_lead_back(&[one]));
}

/// States of which 0 ends, and from 1 no way leads on. From 2 one says answer 0 at place 0 and comes to 0, and from 3 answer 1 at
/// place 0. Two steps leave 4: with answer 0 at place 1 to 2, and with answer 1 at place 1 to 1. So from 4 the only word is 0 0.
fn states_with_a_way_to_no_end(alloc: Global) -> Result<Vec<State>, AllocError> {
    let mut all = Vec::new(alloc);
    all.push(State {
        ends: true,
        steps: Vec::new(alloc),
    })?;
    all.push(state(alloc, &[])?)?;
    all.push(state(alloc, &[(letter(0, 0), 0)])?)?;
    all.push(state(alloc, &[(letter(0, 1), 0)])?)?;
    all.push(state(alloc, &[(letter(1, 0), 2), (letter(1, 1), 1)])?)?;
    Ok(all)
}

/// How often this letter is one of these.
fn times(letters: &[Letter], wanted: Letter) -> usize {
    let mut times: usize = 0;
    for other in letters {
        if *other == wanted {
            times = times.saturating_add(1);
        }
    }
    times
}

/// The letters of the step to a state from which no way leads to an end don't count, nor those of a state to which none leads.
#[test]
fn says_the_letters_of_the_ways_to_an_end(rt: HostRuntime) {
    let Ok(all) = states_with_a_way_to_no_end(rt.alloc()) else {
        panic!(&rt; "no memory")
    };
    let states = all.as_slice();
    if !steps_lead_back(states) || states.len() <= 4 {
        panic!(&rt; "a step leads on")
    }
    let Ok(letters) = letters_said(rt.alloc(), states, 4) else {
        panic!(&rt; "no memory")
    };
    holds(&rt, letters.len() == 2);
    holds(&rt, times(letters.as_slice(), letter(0, 0)) == 1);
    holds(&rt, times(letters.as_slice(), letter(1, 0)) == 1);
}

/// The words of one node are no longer so many, once it is united with another: the empty word and one of a letter.
#[test]
fn unites_the_words_of_two_nodes(rt: HostRuntime) {
    let alloc = rt.alloc();
    let mut graph = Graph::new(alloc, MOST);
    let Ok(end) = graph.only(true) else {
        panic!(&rt; "no memory")
    };
    let Ok(one) = graph.with(end, letter(0, 1)) else {
        panic!(&rt; "no memory")
    };
    if end >= graph.len() {
        panic!(&rt; "no such node")
    }
    let Ok(both) = graph.union(end, one) else {
        panic!(&rt; "no memory")
    };
    holds(&rt, graph.contains(both, &[]));
    holds(&rt, graph.contains(both, &[letter(0, 1)]));
    holds(&rt, !graph.contains(both, &[letter(0, 0)]));
}

/// Room makes no node, and what is made afterwards is the same.
#[test]
fn takes_room_before_it_makes_nodes(rt: HostRuntime) {
    let mut graph = Graph::new(rt.alloc(), MOST);
    let Ok(()) = graph.reserve(MOST) else {
        panic!(&rt; "no memory")
    };
    holds(&rt, graph.len() == 0);
    let Ok(end) = graph.only(true) else {
        panic!(&rt; "no memory")
    };
    if end >= graph.len() {
        panic!(&rt; "no such node")
    }
    holds(&rt, graph.contains(end, &[]));
}

/// A letter has 32 bits for its place and 32 for its answer.
#[test]
fn makes_letters_of_numbers(rt: HostRuntime) {
    let Ok(made) = Letter::at(1, 0xffff_ffff) else {
        panic!(&rt; "no memory")
    };
    holds(&rt, made == letter(1, 0xffff_ffff));
    holds(&rt, Letter::at(1, 0x1_0000_0000).is_err());
    holds(&rt, Letter::at(0x1_0000_0000, 1).is_err());
}

/// Holds whether the answers of the word with this number, in the order of the places, are these, or there is none.
fn has_word(
    rt: &impl Abort,
    alloc: Global,
    graph: &Graph,
    node: usize,
    number: u64,
    want: Option<(u32, u32)>,
) {
    if node >= graph.len() {
        panic!(rt; "no such node")
    }
    let Ok(found) = graph.word_at(alloc, node, number) else {
        panic!(rt; "no memory")
    };
    match (found, want) {
        (None, None) => (),
        (Some(word), Some(answers)) => {
            holds(
                rt,
                word.as_slice() == [letter(0, answers.0), letter(1, answers.1)].as_slice(),
            );
        }
        (None, Some(_)) | (Some(_), None) => panic!(rt; "another number of words"),
    }
}

/// Two words go from state 4, in the order of their letters, and both answers are at place 1.
#[test]
fn counts_and_numbers_words(rt: HostRuntime) {
    let alloc = rt.alloc();
    let Ok(all) = states(alloc) else {
        panic!(&rt; "no memory")
    };
    let states = all.as_slice();
    if !steps_lead_back(states) {
        panic!(&rt; "a step leads on")
    }
    let mut graph = Graph::new(alloc, MOST);
    let Ok(made) = words_of_each(&mut graph, alloc, states) else {
        panic!(&rt; "no memory")
    };
    let Some(node) = made.as_slice().get(4) else {
        panic!(&rt; "no such state")
    };
    if *node >= graph.len() {
        panic!(&rt; "no such node")
    }
    holds(&rt, graph.count(*node) == 2);
    has_word(&rt, alloc, &graph, *node, 0, Some((0, 0)));
    has_word(&rt, alloc, &graph, *node, 1, Some((1, 1)));
    has_word(&rt, alloc, &graph, *node, 2, None);
    let Ok(answers) = graph.answers_at(alloc, *node, 1) else {
        panic!(&rt; "no memory")
    };
    holds(
        &rt,
        answers.len() == 2 && answers.contains(&0) && answers.contains(&1),
    );
}

/// A word of one letter takes three nodes: the end, no word beside it, and its own. What is there already takes none.
#[test]
fn stops_at_its_bound(rt: HostRuntime) {
    let alloc = rt.alloc();
    let mut graph = Graph::new(alloc, 3);
    let Ok(end) = graph.only(true) else {
        panic!(&rt; "no memory")
    };
    if end >= graph.len() {
        panic!(&rt; "no such node")
    }
    let Ok(_) = graph.with(end, letter(0, 0)) else {
        panic!(&rt; "no memory")
    };
    let Ok(_) = graph.with(end, letter(0, 0)) else {
        panic!(&rt; "no memory")
    };
    match graph.with(end, letter(0, 1)) {
        Err(NoRoom::Bound) => (),
        Err(NoRoom::Memory) | Ok(_) => panic!(&rt; "the bound is not kept"),
    }
}
