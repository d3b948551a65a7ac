//! Messages byte for byte, and the links over which they go.
mod links;
mod passing;
mod replies;
mod requests;
