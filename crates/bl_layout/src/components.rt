ghost use Rattle.std.specs.Prelude.{◌<◌, ◌^◌, length};

use std::alloc::{AllocError, Global};

/// Numbers of the strongly connected components of a graph by Tarjan's walk: numbers that reach one
/// another have the same one, and a link to another component falls. Nothing here is proved of the
/// result: callers test it.
pub fn component_numbers(alloc: Global, links: &[Vec<u32>]) -> Result<Vec<u32>, AllocError>
    requires { length links.now < 2 ^ 32 }
{
    let mut walk = Walk::new(alloc, links.len())?;
    for root in 0..links.len() as u32 {
        walk.enter(root)?;
        for _ in 0..u64::MAX {
            if !walk.step(links)? {
                break;
            }
        }
    }
    Ok(walk.components)
}

// A place on the way: a number, and how many of its links were followed.
#[derive(Clone, Copy)]
struct Place {
    number: u32,
    followed: usize,
}

// A walk over a graph, with its way so far.
#[derive(Drop)]
struct Walk {
    // When each number was entered, from 1; 0 before.
    entered: Vec<u32>,
    // The earliest entry that each number leads back to.
    earliest: Vec<u32>,
    // The component of each number, from 1; 0 while it is open.
    components: Vec<u32>,
    way: Vec<Place>,
    // The numbers that were entered and have no component yet.
    open: Vec<u32>,
    entries: u32,
    closed: u32,
}

impl Walk {
    fn new(alloc: Global, count: usize) -> Result<Walk, AllocError> {
        Ok(Walk {
            entered: vec![in alloc; 0; count]?,
            earliest: vec![in alloc; 0; count]?,
            components: vec![in alloc; 0; count]?,
            way: Vec::new(alloc),
            open: Vec::new(alloc),
            entries: 0,
            closed: 0,
        })
    }

    // Puts a number on the way, unless it was entered.
    fn enter(&mut self, number: u32) -> Result<(), AllocError> {
        if value_at(&self.entered, number) != 0 {
            return Ok(());
        }
        self.entries = self.entries.wrapping_add(1);
        set_at(&mut self.entered, number, self.entries);
        set_at(&mut self.earliest, number, self.entries);
        self.open.push(number)?;
        self.way.push(Place {
            number,
            followed: 0,
        })?;
        Ok(())
    }

    // Follows one link of the last number on the way, or leaves it. Says whether there was one.
    fn step(&mut self, links: &[Vec<u32>]) -> Result<bool, AllocError> {
        let Some(place) = self.way.pop() else {
            return Ok(false);
        };
        let next = links
            .get(place.number as usize)
            .and_then(|row| row.get(place.followed).copied());
        match next {
            Some(to) => {
                self.way.push(Place {
                    number: place.number,
                    followed: place.followed.wrapping_add(1),
                })?;
                let entry = value_at(&self.entered, to);
                if entry == 0 {
                    self.enter(to)?;
                } else if value_at(&self.components, to) == 0 {
                    self.lead_back(place.number, entry);
                }
            }
            None => self.leave(place.number),
        }
        Ok(true)
    }

    // Leaves a number, with the component that it is the first of.
    fn leave(&mut self, number: u32) {
        let earliest = value_at(&self.earliest, number);
        if earliest == value_at(&self.entered, number) {
            self.close(number);
        }
        if let Some(before) = self.way.last().copied() {
            self.lead_back(before.number, earliest);
        }
    }

    // Gives a component to all numbers that were opened since this one.
    fn close(&mut self, number: u32) {
        self.closed = self.closed.wrapping_add(1);
        while let Some(member) = self.open.pop() {
            set_at(&mut self.components, member, self.closed);
            if member == number {
                break;
            }
        }
    }

    fn lead_back(&mut self, number: u32, entry: u32) {
        let earliest = value_at(&self.earliest, number);
        set_at(&mut self.earliest, number, earliest.min(entry));
    }
}

fn value_at(values: &[u32], number: u32) -> u32 {
    values.get(number as usize).copied().unwrap_or(0)
}

fn set_at(values: &mut [u32], number: u32, value: u32) {
    if let Some(place) = values.get_mut(number as usize) {
        *place = value;
    }
}
