// A constant or an enumerated value as the value of a place: conversion, implicit defaults, strings and nodes (scalar.rs, and the string functions of
// resolver.rs). Nothing here reads a file: what a rule needs of one comes as an argument.
#![tactic(auto)]

pub mod convert;
pub mod default;
pub mod members;
pub mod node;
pub mod string;
