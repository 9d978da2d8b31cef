//! The limits of a guide, and the guide that a list of edits leaves (EN 300 468, 5.2.3, 5.2.4 and
//! 6.2).
//!
//! It has no code, only definitions: when an event is, which events are apart, the limits of
//! events, services and guides, and what stands after edits. The book keeps edits within these
//! limits, and other crates need a guide within them.
#![tactic(auto)]
