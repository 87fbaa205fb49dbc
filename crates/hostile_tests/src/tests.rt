//! Hostile use, with what is reported typed in.
mod broken;
mod children;
mod desk;
mod edge;
mod looks;
mod memory;
mod stale;
mod sweep;
