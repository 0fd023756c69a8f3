mod calls;
mod clients;
mod delivery_steps;
mod dripping;
mod folder_files;
mod journal_lines;
mod listeners;
mod peer_tables;
