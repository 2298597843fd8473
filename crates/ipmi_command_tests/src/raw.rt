//! Tests of ipmi_raw: the texts of requests and replies in both dialects, and controllers that are asked through them. For
//! one controller the tests play the tools. For another the tool is in memory, over an image, and is proved honest.

mod answer;
mod asked;
mod calls;
mod cases;
mod controller;
mod freeipmi;
mod ipmitool;
mod listings;
pub mod memory;
mod message;
mod printed;
mod requests;
mod silence;
mod streams;
mod tools;
mod words;
