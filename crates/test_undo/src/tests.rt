//! Tables of moves, and long courses of them.

mod changing;
mod courses;
mod following;
mod pairs;
mod stepping;
mod together;
mod undoing;
