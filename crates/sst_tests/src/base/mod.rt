pub(crate) mod devices;
mod frames;
mod printed;
mod vectors;
