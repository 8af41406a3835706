// The kinds of masks, named by the step that makes them.

// Alpha steps alone leave the run's words as they are, a beta step xors one neighbour to each, a gamma
// step two.
#[derive(Clone, Copy)]
pub enum Kind {
    Alpha,
    Beta,
    Gamma,
}
