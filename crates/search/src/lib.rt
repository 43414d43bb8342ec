// Tests of many things at once, searches, and how lists of numbers stand to one another: definitions, in specs/, each with the laws by which
// a loop works it out. What a search finds is an `Option`, how two stand to one another an `Ordering`.
#![tactic(auto)]

pub mod halving;
