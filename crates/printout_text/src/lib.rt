// What syncplan prints for the texts of three files: what is said of it.
