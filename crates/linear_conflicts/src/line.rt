use crate::variable::{NEAR, Variable};
use std::mem;

/// A variable that is the sum of factors times the free variables.
#[derive(Drop)]
pub struct Line {
    pub variable: Variable,
    pub factors: Vec<f64>,
}

impl Line {
    /// The place of the first free variable that can bring the sum nearer to its range.
    pub fn mover(&self, free: &[Variable]) -> Option<usize> {
        let up = self.variable.is_below();
        for place in 0..self.factors.len() {
            let factor = self.factors[place];
            if factor.abs() > NEAR && free.get(place)?.can_move((factor > 0.0) == up) {
                return Some(place);
            }
        }
        None
    }

    /// Exchanges the variable, which gets the end of its range that the sum has passed, with the free one at a place. How far that one
    /// moves.
    pub fn exchange(&mut self, free: &mut [Variable], place: usize) -> Option<f64> {
        let pivot = *self.factors.get(place)?;
        let end = self.variable.passed_end();
        let by = (end - self.variable.value) / pivot;
        self.variable.value = end;
        mem::swap(&mut self.variable, free.get_mut(place)?);
        self.variable.value += by;
        self.solve(place, pivot);
        Some(by)
    }

    // Solves the sum for the free variable at a place.
    fn solve(&mut self, place: usize, pivot: f64) {
        for factor in self.factors.iter_mut() {
            *factor = -*factor / pivot;
        }
        if let Some(factor) = self.factors.get_mut(place) {
            *factor = 1.0 / pivot;
        }
    }

    /// Puts the sum of another line in the place of a free variable, which has moved so far.
    pub fn replace(&mut self, place: usize, line: &Line, by: f64) {
        let Some(factor) = self.factors.get_mut(place) else {
            return;
        };
        let times = mem::replace(factor, 0.0);
        if times != 0.0 {
            self.variable.value += times * by;
            for (factor, more) in self.factors.iter_mut().zip(line.factors.iter()) {
                *factor += times * *more;
            }
        }
    }
}
