use cx_code::{DetectionMode, Event, Image, Party, Semantic, Violation};
use cx_outside::{NoMemory, Text};
use cx_plain_state::Evaluation;
use cx_violation::violation_of;
use std::alloc::Global;

/// The evaluations that a journal of an image begins, as the meaning is told them.
pub fn begins_in(
    alloc: Global,
    image: &Image,
    journal: &[Event],
) -> Result<Vec<Evaluation>, NoMemory> {
    let mut begins = Vec::new(alloc);
    for event in journal {
        if let Event::Begin(index, party, semantic) = *event {
            begins.push(evaluation(alloc, image, index, party, semantic)?)?;
        }
    }
    Ok(begins)
}

fn evaluation(
    alloc: Global,
    image: &Image,
    index: u32,
    party: Party,
    semantic: Semantic,
) -> Result<Evaluation, NoMemory> {
    Ok(Evaluation {
        assertion: name_of(alloc, image, index)?,
        party,
        semantic,
    })
}

/// The name of an assertion of an image, or the empty one where it has none at the index.
pub fn name_of(alloc: Global, image: &Image, index: u32) -> Result<Text, NoMemory> {
    let Some(assertion) = image.assertions.items().get(index as usize) else {
        return Ok(Text::new(alloc));
    };
    let mode = DetectionMode::PredicateFalse;
    let told = violation_of(alloc, image, assertion, mode, Semantic::Observe)?;
    let Violation {
        assertion: name,
        ..
    } = told;
    Ok(name)
}
