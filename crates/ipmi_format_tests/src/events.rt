//! Worked events and sensors in words. The texts were put together by hand.
mod details;
mod devices;
mod lines;
mod memory;
mod records;
mod sensor_texts;
mod sensors;
mod severities;
mod words;
